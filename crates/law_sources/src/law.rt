//! Laws of sources.

ghost use Rattle.model.specs.Bytes.{BytesFillTheirSize};
ghost use Rattle.model.specs.Layout.{LengthsAreTheTables};
ghost use Rattle.model.specs.Source.{EachSourceIsJudged, ImageOrFault, NamesHaveTheirNumbers};
ghost use Rattle.model.specs.Source.{OneAssignment, OneFault, OneImage};
ghost use Rattle.law_sources.specs.Judging.{DenotedIsJudged, FaultIsJudged, JudgedIsMeant};

/// States that each source denotes exactly one image or has exactly one fault.
///
/// A law for proofs: the call does nothing.
pub fn each_source_has_one_meaning()
    ensures each { EachSourceIsJudged }
    ensures image { OneImage }
    ensures fault { OneFault }
    ensures either { ImageOrFault }
{}

/// States that lines have one layout only, and names one number. A law for proofs: does nothing.
pub fn one_assignment()
    ensures { OneAssignment }
{}

/// States that under the numbers of all names each name has its value.
///
/// Each label's number is its line's address, and each defined name's number is the value of its
/// expression under the names known there. A law for proofs: the call does nothing.
pub fn names_have_their_numbers()
    ensures { NamesHaveTheirNumbers }
{}

/// States that two passes over a source compute what it denotes, or its fault.
///
/// A law for proofs: the call does nothing.
pub fn judging_is_right()
    ensures meant { JudgedIsMeant }
    ensures denoted { DenotedIsJudged }
    ensures fault { FaultIsJudged }
{}

/// States that an instruction is as long as its opcode's row in the table says.
///
/// A law for proofs: the call does nothing.
pub fn lengths_are_the_tables()
    ensures { LengthsAreTheTables }
{}

/// States that a line without a fault has as many bytes as its size says.
///
/// A law for proofs: the call does nothing.
pub fn bytes_fill_their_size()
    ensures { BytesFillTheirSize }
{}

//! `asm`: a source to the text of its tape, and to its listing.
ghost use Rattle.std.specs.Prelude.{◌≡◌, ◌⊎◌, ℕ, List, None, Option, Some, Err, IfErr, IfOk};
ghost use Rattle.std.specs.Prelude.{IfSome, MatchResult, false, if◌then◌else◌, option_map};
ghost use Rattle.arguments.specs.Files.{EndsWriting};
ghost use Rattle.assembler.specs.Assembly.{listing_of, out_of_memory};
ghost use Rattle.model.specs.Listing.{IsListing};
ghost use Rattle.model.specs.Source.{Denotes, HasFault};
ghost use Rattle.model.specs.State.{is_map};
ghost use Rattle.model.specs.TapeText.{tape_text};
ghost use Rattle.model.specs.declared.bus_fault.BusFault.TheVariants.{BadMap};
ghost use Rattle.model.specs.declared.source_fault.AsmFault.{AsmFault};
ghost use Rattle.program.specs.Refusals.{EndsAsm};
ghost use Rattle.program.specs.Texts.{IsAsked};

use crate::asked::AsmWords;
use arguments::{Refusal, check_outputs, check_source, map_of, read_source, write_file};
use assembler::{Assembly, assemble};
use bus::MapSpec;
use law_sources::{each_source_has_one_meaning, one_assignment};
use model::{AsmFault, AsmFaultKind};
use papertape::write_tape;
use std::alloc::Global;
use std::rt::Files;

/// The texts that `mos65 asm` writes.
#[derive(Debug, Drop)]
pub struct AsmTexts {
    /// The text of the tape.
    pub tape: Vec<u8>,
    /// The listing, if one is asked for.
    pub listing: Option<Vec<u8>>,
}

/// Returns the texts of an assembly, with its listing if that is asked for.
///
/// Errors: `OutOfMemory` with line 0 if an allocation fails.
fn texts_of(alloc: Global, assembly: &Assembly, is_listed: bool) -> Result<AsmTexts, AsmFault>
    ensures tape { IfOk result (λ t. t.tape.items ≡ tape_text assembly.now.image) }
    ensures listing { IfOk result (λ t. option_map (λ l. l.items) t.listing
        ≡ (if is_listed then Some (listing_of assembly.now) else None)) }
    ensures only { IfErr result (λ f. f ≡ out_of_memory) }
{
    let listing = if is_listed {
        Some(assembly.listing(alloc)?)
    } else {
        None
    };
    match write_tape(alloc, assembly.image()) {
        Ok(tape) => Ok(AsmTexts { tape, listing }),
        Err(_) => Err(AsmFault {
            line: 0,
            kind: AsmFaultKind::OutOfMemory,
        }),
    }
}

/// Assembles a source on a map, and returns the texts that `mos65 asm` writes.
///
/// They are the text of the image's tape, and the listing if it is asked for.
///
/// # Errors
///
/// The source's own fault with its line, or `OutOfMemory` with line 0 if an allocation fails.
pub fn asm_texts(
    alloc: Global,
    source: &[u8],
    map: &MapSpec,
    is_listed: bool,
) -> Result<AsmTexts, AsmFault>
    // The tape is that of an image that the source denotes.
    ensures denoted { IfOk result (λ t. (image : List (Option ℕ)) × Denotes map.now source.now image
        × (t.tape.items ≡ tape_text image)) }
    // A source that denotes an image has its tape, unless memory runs out.
    ensures only { (image : List (Option ℕ)) → Denotes map.now source.now image
        → MatchResult result (λ t. t.tape.items ≡ tape_text image) (λ f. f ≡ out_of_memory) }
    // The listing is that of the source if one is asked for; otherwise there is none.
    ensures listed { IfOk result
        (λ t. IsAsked map.now source.now is_listed (option_map (λ l. l.items) t.listing)) }
    // No other text is a listing of the source.
    ensures only_listing { IfOk result (λ t. IfSome t.listing
        (λ l. (other : List ℕ) → IsListing map.now source.now other → l.items ≡ other)) }
    // A source with a fault is rejected with it, unless memory runs out, and no other is.
    ensures faulty { (f : AsmFault) → HasFault map.now source.now f
        → (result ≡ Err f) ⊎ (result ≡ Err out_of_memory) }
    ensures refused { IfErr result (λ f. (f ≡ out_of_memory) ⊎ HasFault map.now source.now f) }
{
    // For the proof: a source has one image, and one address for each line and number for each
    // name.
    each_source_has_one_meaning();
    one_assignment();
    let assembly = assemble(alloc, source, map)?;
    match texts_of(alloc, &assembly, is_listed) {
        Ok(texts) => Ok(texts),
        Err(_) => Err(AsmFault {
            line: 0,
            kind: AsmFaultKind::OutOfMemory,
        }),
    }
}

/// Checks that the files to write are neither the source nor one file, and that a source that looks
/// like a tape replaces none.
fn check_files<H: Files + AllocGlobal>(
    rt: &H,
    words: &AsmWords<'_>,
    source: &[u8],
) -> Result<(), Refusal>
    ensures only { IfErr result EndsWriting }
{
    let written = [Some(words.tape), words.listing];
    match check_outputs(rt, &[Some(words.source)], &written) {
        Ok(()) => {}
        Err(why) => return Err(why.refusal),
    }
    check_source(rt, source, &written).map_err(|why| why.refusal)
}

/// Writes the tape's file, and then the listing's if there is a listing.
fn write_texts<H: Files + AllocGlobal>(
    rt: &H,
    words: &AsmWords<'_>,
    texts: &AsmTexts,
) -> Result<(), Refusal>
    ensures only { IfErr result EndsWriting }
{
    write_file(rt, words.tape, texts.tape.as_slice())?;
    match (words.listing, &texts.listing) {
        (Some(file), Some(listing)) => write_file(rt, file, listing.as_slice()),
        _ => Ok(()),
    }
}

/// Assembles a file and writes its tape and, if it is asked for, its listing.
///
/// Both texts are whole before a file is made. None is made if one of the files is the source or
/// both are one file, or if the source looks like a tape and one of the files is there.
pub fn asm<H: Files + AllocGlobal>(rt: &H, words: &AsmWords<'_>) -> Result<(), Refusal>
    ensures bad_map { is_map None words.now.port ≡ false → result ≡ Err (Refusal.Map BadMap) }
    ensures refused { IfErr result
        (EndsAsm (record { profile = words.now.profile; rom = None; port = words.now.port })) }
{
    let map = map_of(words.profile, None, words.port)?;
    let source = read_source(rt, words.source)?;
    let is_listed = words.listing.is_some();
    let texts = asm_texts(rt.alloc(), source.as_slice(), &map, is_listed)?;
    check_files(rt, words, source.as_slice())?;
    write_texts(rt, words, &texts)
}

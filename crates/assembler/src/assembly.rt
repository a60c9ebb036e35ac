//! A source assembled.

ghost use Rattle.std.specs.Prelude.{◌≡◌, ◌<◌, ◌≤◌, ◌⊎◌, ℕ, List, Option, Err, IfOk, IfErr, false, length};
ghost use Rattle.std.specs.Prelude.{[], slice_get, take};
ghost use Rattle.std.specs.Option.{option_map, option_to_list};
ghost use Rattle.assembler.specs.Assembly.{with_other, with_others};
ghost use Rattle.assembler.specs.Assembly.{AnswersSource, AreRead, IsAssembled, IsImageOrMemory};
ghost use Rattle.assembler.specs.Assembly.{listing_of, out_of_memory, source_lines, verdict_view};
ghost use Rattle.assembler.specs.Assembly.{verdict};
ghost use Rattle.assembler.specs.Lines.{labels_in, line_view, placed_lines};
ghost use Rattle.assembler.specs.Texts.{texts_in};
ghost use Rattle.model.specs.TextLines.{lines_of};
ghost use Rattle.model.specs.Layout.{Context, IsLaidOut, PlacedLine, extents_of};
ghost use Rattle.model.specs.Listing.{IsListing};
ghost use Rattle.model.specs.Names.{number_in};
ghost use Rattle.model.specs.Source.{Denotes, HasFault, first_context, read_lines};
ghost use Rattle.model.specs.Image.{IsImage};
ghost use Rattle.model.specs.State.{has_port_byte};
ghost use Rattle.model.specs.declared.source_fault.AsmFault.{AsmFault};
ghost use Rattle.model.specs.declared.source_fault.AsmFaultKind.TheVariants.{TooLarge};
ghost use Rattle.symbols.specs.Entries.{entry_view};

use crate::first_pass::{Laid, lay_out};
use crate::source_line::{LineText, SourceLine};
use emission::make_image;
use law_sources::{judging_is_right, one_assignment};
use line_parts::{OUT_OF_MEMORY, Span};
use listing::listing_of;
use memory_map::{Image, MapSpec};
use model::{AsmFault, AsmFaultKind};
use std::alloc::{AllocError, Global};
use std::marker::Model;
use symbols::Symbols;

/// The most bytes that a source has. Source: mos65.
const SOURCE_SIZE: usize = 1_048_576;

/// The fault of a source that has more.
const TOO_LARGE: AsmFault = AsmFault {
    line: 0,
    kind: AsmFaultKind::TooLarge,
};

/// The result of assembling a source.
#[derive(Drop)]
pub struct Assembly {
    image: Image,
    source: Vec<u8>,
    spans: Vec<Span>,
    texts: Vec<LineText>,
    symbols: Symbols,
    labels: Vec<bool>,
    // Each line has a text, which is that line of the source.
    ghost paired: { length texts.items ≡ length spans.items },
    ghost cut: { texts_in source.items texts.items
        ≡ take (length texts.items) (lines_of source.items) },
    ghost few: { length texts.items ≤ 1048576 },
    // Of each name it is known whether it is a label.
    ghost named: { length labels.items ≡ length symbols },
}

impl Model for Assembly {
    ghost use Rattle.assembler.specs.Assembly.{AssemblyView};
    ghost use Rattle.assembler.specs.Texts.{instructions_of};
    ghost use Rattle.line_parts.specs.Spans.{pairs_of};

    ghost Value = { AssemblyView };

    ghost view = { λ a. record {
      image = a.image;
      source = a.source.items;
      places = pairs_of a.spans.items;
      instructions = instructions_of a.texts.items;
      names = a.symbols;
      labels = a.labels.items;
    } };
}

/// Returns the item at an index.
fn item_at<T: Copy>(items: &[T], index: usize) -> Option<T>
    ensures { result ≡ slice_get items.now index }
{
    items.get(index).copied()
}

impl Assembly {
    /// Returns the image: the byte at each of the 65,536 addresses where the source denotes one.
    pub fn image(&self) -> &Image
        ensures { result.now ≡ self.now.image }
    {
        &self.image
    }

    /// Returns the source.
    pub fn source(&self) -> &[u8]
        ensures { result.now ≡ self.now.source }
    {
        &self.source
    }

    /// Returns how many names the source defines.
    pub fn symbol_count(&self) -> usize
        ensures { result ≡ length self.now.names }
    {
        self.symbols.count()
    }

    /// Returns a name and its number, by its index in the order of definition, counted from 0.
    pub fn symbol(&self, index: usize) -> Option<(&[u8], i32)>
        ensures { entry_view result ≡ slice_get self.now.names index }
    {
        self.symbols.symbol(index)
    }

    /// Returns whether a name is a label, which stands before `:`, by its index.
    pub fn is_label(&self, index: usize) -> Option<bool>
        ensures told { result ≡ slice_get self.now.labels index }
        // It is told of each name.
        ensures each { length self.now.labels ≡ length self.now.names }
    {
        self.labels.get(index).copied()
    }

    /// Returns the number of a name, if the source defines it.
    pub fn value_of(&self, name: &[u8]) -> Option<i32>
        ensures { result ≡ number_in self.now.names name.now }
    {
        self.symbols.value_of(name)
    }

    /// Returns how many lines of the source were read: all, or up to that of `.END`.
    pub fn line_count(&self) -> usize
        ensures { result ≡ length (source_lines self.now) }
    {
        self.spans.len()
    }

    /// Returns a line that was read, by its index, counted from 0: `None` if there is no such line.
    ///
    /// A line takes the same time wherever it stands.
    pub fn line(&self, index: usize) -> Option<SourceLine<'_>>
        ensures { option_map line_view result ≡ slice_get (source_lines self.now) index }
    {
        let span = item_at(&self.spans, index)?;
        let text = item_at(&self.texts, index)?;
        Some(SourceLine {
            number: index as u32 + 1,
            address: span.address,
            count: span.count,
            text: text.of(&self.source),
            is_instruction: text.is_instruction,
        })
    }

    /// Returns the names with the bytes of an image in the place of the source's own, and without
    /// its lines: what a file of names says of an image that has no source.
    pub fn with_image(self, alloc: Global, image: Image) -> Assembly
        ensures { result ≡ record self {
          image = image;
          source = [];
          places = [];
          instructions = [];
        } }
    {
        let Assembly {
            image: _own_image,
            source: _source,
            spans: _spans,
            texts: _texts,
            symbols,
            labels,
        } = self;
        Assembly {
            image,
            source: Vec::new(alloc),
            spans: Vec::new(alloc),
            texts: Vec::new(alloc),
            symbols,
            labels,
        }
    }

    /// Returns the same with one name more, which is no label, unless the name is there.
    fn with_name(self, alloc: Global, name: &[u8], number: i32) -> Result<Assembly, AllocError>
        ensures { IfOk result (λ a. a ≡ with_other (name.now, number) self) }
    {
        if self.symbols.value_of(name).is_some() {
            return Ok(self);
        }
        let Assembly {
            image,
            source,
            spans,
            texts,
            mut symbols,
            mut labels,
        } = self;
        symbols.define(alloc, name, number)?;
        labels.push(false)?;
        Ok(Assembly {
            image,
            source,
            spans,
            texts,
            symbols,
            labels,
        })
    }

    /// Returns the same with the name of an index, if there is one.
    fn with_symbol(
        self,
        alloc: Global,
        names: &Symbols,
        index: usize,
    ) -> Result<Assembly, AllocError>
        ensures { IfOk result
            (λ a. a ≡ with_others (option_to_list (slice_get names.now index)) self) }
    {
        match names.symbol(index) {
            Some((name, number)) => self.with_name(alloc, name, number),
            None => Ok(self),
        }
    }

    /// Returns the same with more names behind its own, which are no labels: those that it does not
    /// have. They need not be names of a source.
    ///
    /// The only error is that an allocation failed.
    pub fn with_names(self, alloc: Global, names: &Symbols) -> Result<Assembly, AllocError>
        ensures { IfOk result (λ a. a ≡ with_others names.now self) }
    {
        let mut all = self;
        for index in 0..names.count() {
            all = all.with_symbol(alloc, names, index)?;
        }
        Ok(all)
    }

    /// Returns the listing: each line that was read with its address and bytes, then the names.
    ///
    /// The names come in order of definition.
    ///
    /// Errors: `OutOfMemory` with line 0 if an allocation fails.
    pub fn listing(&self, alloc: Global) -> Result<Vec<u8>, AsmFault>
        ensures rows { IfOk result (λ text. text.items ≡ listing_of self.now) }
        ensures only { IfErr result (λ fault. fault ≡ out_of_memory) }
    {
        listing_of(alloc, &self.source, &self.spans, &self.image, &self.symbols).map_err(
            |_| OUT_OF_MEMORY,
        )
    }
}

/// Assembles a source in its map's profile: returns the image that it denotes, or its fault.
///
/// Lines end with LF or CR LF; after the last LF comes one more line if it is not empty. Lines are
/// counted from 1. Nothing after the line of `.END` is read.
///
/// A fault of the layout comes before any fault of a value. Within each group the lowest line
/// decides, then the lowest number on it.
///
/// - `TooLarge`, with line 0 and before all others: the source has more than 1,048,576 bytes.
/// - Layout, of a line's text: `LineTooLong` above 255 bytes without its end; `NotAscii` if a byte
///   is neither $20..$7E nor a tab (a CR that is not right before an LF is such a byte); `Syntax`
///   if the line is not in the grammar; `ReservedName` if a mnemonic, A, X or Y is used as a name.
/// - Layout, of its name, its address and its size: `DuplicateName` if an earlier line defines its
///   name; `UnknownHere` if `*=`, `.RES` or the definition of a name uses a name that neither an
///   earlier line nor its own label defines; `NoSuchForm` if the instruction has no form for the
///   operand; `TooManyNames` if its name is the 8,193rd; `OriginRange` if the value of `*=` is
///   outside 0..65535, or `.RES` goes below its line's address or past 65536; `ExprRange` (11) and
///   `DivideByZero` (12) in an expression that places, sizes or defines.
/// - Values: `UndefinedName` for a name that no line defines; `ByteRange` and `WordRange` for a
///   value that does not fit its byte or its two bytes; `BranchRange` for a target farther than
///   -128..127 from the next instruction; `PastEnd` for a byte past address 65535; `Overlap` for a
///   byte where an earlier line has one; `PortAddress` for a byte at an address of the map's port;
///   `ExprRange` (27) and `DivideByZero` (28) in any other expression. The line's address and its
///   size alone decide `PastEnd`, `Overlap` and `PortAddress`.
/// - `OutOfMemory` with line 0: an allocation failed. It can come before any other fault is found,
///   and no other fault is returned in its place.
///
/// Source: mos65.
pub fn assemble(alloc: Global, source: &[u8], map: &MapSpec) -> Result<Assembly, AsmFault>
    // The image is what the source denotes.
    ensures denoted { IfOk result (λ a. Denotes map.now source.now a.image) }
    // A source that denotes an image is assembled to it, unless memory runs out.
    ensures only { (image : List (Option ℕ)) → Denotes map.now source.now image
        → IsImageOrMemory result image }
    // An error is the source's fault, or `OutOfMemory`.
    ensures refused { IfErr result (λ f. (f ≡ out_of_memory) ⊎ HasFault map.now source.now f) }
    // A source with a fault is rejected with it, unless memory runs out.
    ensures faulty { (f : AsmFault) → HasFault map.now source.now f
        → (result ≡ Err f) ⊎ (result ≡ Err out_of_memory) }
    // A source that is too large is rejected for that, even if memory runs out.
    ensures large { 1048576 < length source.now
        → result ≡ Err (record { line = 0; kind = TooLarge }) }
    // No byte is at a port address, so a machine can load the image.
    ensures spared { IfOk result (λ a. has_port_byte map.now a.image ≡ false) }
    ensures cells { IfOk result (λ a. IsImage a.image) }
    // The source is kept, with each line's address and number of bytes, and its names.
    ensures kept { IfOk result (λ a. a.source ≡ source.now) }
    ensures places { IfOk result
        (λ a. (placed : List PlacedLine) (all : Context) → IsLaidOut (first_context map.now.profile)
        (read_lines map.now.profile source.now) placed all → a.places ≡ extents_of placed) }
    // Each line that is read is kept in its place.
    ensures lines { IfOk result
        (λ a. (placed : List PlacedLine) (all : Context) → IsLaidOut (first_context map.now.profile)
        (read_lines map.now.profile source.now) placed all
        → source_lines a ≡ placed_lines map.now.profile source.now placed) }
    ensures labels { IfOk result
        (λ a. a.labels ≡ labels_in map.now.profile (read_lines map.now.profile source.now)) }
    ensures names { IfOk result
        (λ a. (placed : List PlacedLine) (all : Context) → IsLaidOut (first_context map.now.profile)
        (read_lines map.now.profile source.now) placed all → a.names ≡ all.names) }
    // All of these are one assembly of the source that is kept.
    ensures assembled { IfOk result (IsAssembled map.now) }
    // The listing of these is that of the source.
    ensures listed { IfOk result (λ a. IsListing map.now source.now (listing_of a)) }
{
    // For the proof: what two passes compute is what the source denotes.
    judging_is_right();
    one_assignment();
    assemble_lines(alloc, source, map)
}

/// Lays out the source, and then puts its bytes.
fn assemble_lines(alloc: Global, source: &[u8], map: &MapSpec) -> Result<Assembly, AsmFault>
    ensures exact { AnswersSource verdict_view result (verdict map.now source.now) }
    ensures large { 1048576 < length source.now
        → result ≡ Err (record { line = 0; kind = TooLarge }) }
    ensures cells { IfOk result (λ a. IsImage a.image) }
    ensures kept { IfOk result (λ a. a.source ≡ source.now) }
    ensures read { IfOk result (AreRead map.now.profile) }
    ensures spared { IfOk result (λ a. has_port_byte map.now a.image ≡ false) }
{
    if source.len() > SOURCE_SIZE {
        return Err(TOO_LARGE);
    }
    let mut symbols = Symbols::new(alloc);
    let laid = match lay_out(alloc, map.profile(), &mut symbols, source) {
        Ok(laid) => laid,
        Err(fault) => {
            drop(symbols);
            return Err(fault);
        }
    };
    let image = match make_image(alloc, map, &symbols, laid.lines.lines()) {
        Ok(image) => image,
        Err(fault) => {
            drop(symbols);
            drop(laid);
            return Err(fault);
        }
    };
    let _ = image.cells(); // For the proof: what it says of each image.
    let Laid {
        lines,
        texts,
        labels,
    } = laid;
    let spans = lines.into_spans();
    match Vec::from_slice(alloc, source) {
        Ok(source) => Ok(Assembly {
            image,
            source,
            spans,
            texts,
            symbols,
            labels,
        }),
        Err(_) => {
            drop(symbols);
            Err(OUT_OF_MEMORY)
        }
    }
}

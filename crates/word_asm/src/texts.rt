//! All texts that the words ask for.

ghost use Rattle.std.specs.Prelude.{◌≡◌, ◌⊎◌, ◌≤◌, ℕ, List, Option, Err, IfErr, IfOk, MatchResult};
ghost use Rattle.std.specs.Prelude.{None, Some, if◌then◌else◌, length, option_map};
ghost use Rattle.word_asm.specs.Found.{names_found, places_found};
ghost use Rattle.word_asm.specs.Images.{AreImagesOf};
ghost use Rattle.word_asm.specs.Texts.{AreSymbols, IsMapAsked, map_text, symbols_text};
ghost use Rattle.assembler.specs.Assembly.{out_of_memory};
ghost use Rattle.model.specs.Source.{Denotes, HasFault};
ghost use Rattle.model.specs.TapeText.{tape_text};
ghost use Rattle.model.specs.declared.source_fault.AsmFault.{AsmFault};
ghost use Rattle.program.specs.Texts.{IsAsked};

use crate::format::SymbolsFormat;
use crate::images::{ImageTexts, ImagesAsked, image_texts};
use crate::names::symbols_text;
use crate::places::map_text;
use assembler::assemble;
use bus::MapSpec;
use line_parts::OUT_OF_MEMORY;
use model::AsmFault;
use program::{AsmTexts, asm_texts};
use source_faults::{Mending, lay_out};
use std::alloc::{AllocError, Global};
use symbols::Symbols;

/// Which texts are asked for beside that of the tape.
#[derive(Clone, Copy)]
pub struct TextsAsked {
    /// Whether a listing is.
    pub is_listed: bool,
    /// The format of the names, if they are.
    pub symbols: Option<SymbolsFormat>,
    /// Whether the places of the lines are.
    pub is_mapped: bool,
    /// In which other forms the image is.
    pub images: ImagesAsked,
}

/// The texts that `asm` writes with further files.
#[derive(Drop)]
pub struct FileTexts {
    /// The texts of the tape and of the listing.
    pub asm: AsmTexts,
    /// The names, if they are asked for.
    pub symbols: Option<Vec<u8>>,
    /// The places of the lines, if they are asked for.
    pub map: Option<Vec<u8>>,
    /// The image in other forms.
    pub images: ImageTexts,
}

/// The names and the places of a source, each if it is asked for.
#[derive(Drop)]
struct OtherTexts {
    symbols: Option<Vec<u8>>,
    map: Option<Vec<u8>>,
}

/// Returns the names and the places of a source that can be laid out, each if it is asked for.
fn other_texts(
    alloc: Global,
    source: &[u8],
    map: &MapSpec,
    asked: TextsAsked,
) -> Result<OtherTexts, AllocError>
    requires size { length source.now ≤ 1048576 }
    ensures symbols { IfOk result (λ t. option_map (λ l. l.items) t.symbols
        ≡ option_map (λ f. symbols_text f (names_found map.now source.now)) asked.symbols) }
    ensures map { IfOk result (λ t. option_map (λ l. l.items) t.map
        ≡ (if asked.is_mapped then Some (map_text 1 (places_found map.now source.now)) else None)) }
{
    let mut names = Symbols::new(alloc);
    let found = lay_out(alloc, map.profile(), Mending::Smallest, &mut names, source)?;
    let symbols = match asked.symbols {
        Some(format) => Some(symbols_text(alloc, format, &names)?),
        None => None,
    };
    let map = if asked.is_mapped {
        Some(map_text(alloc, &found)?)
    } else {
        None
    };
    Ok(OtherTexts { symbols, map })
}

/// Returns the image of a source in the forms that are asked for.
///
/// Errors: as those of `file_texts`.
#[tactic(auto, using(crate::proofs::Imaged::images_as))]
fn images_of(
    alloc: Global,
    source: &[u8],
    map: &MapSpec,
    asked: ImagesAsked,
) -> Result<ImageTexts, AsmFault>
    ensures images { IfOk result (AreImagesOf map.now source.now asked) }
    ensures refused { IfErr result (λ f. (f ≡ out_of_memory) ⊎ HasFault map.now source.now f) }
{
    let assembly = assemble(alloc, source, map)?;
    match image_texts(alloc, assembly.image(), asked) {
        Ok(texts) => Ok(texts),
        Err(_) => Err(OUT_OF_MEMORY),
    }
}

/// Assembles a source on a map, and returns the texts that `asm` writes: that of the tape, and
/// those that are asked for.
///
/// # Errors
///
/// The source's own fault with its line, or `OutOfMemory` with line 0 if an allocation fails.
pub fn file_texts(
    alloc: Global,
    source: &[u8],
    map: &MapSpec,
    asked: TextsAsked,
) -> Result<FileTexts, AsmFault>
    // The tape is that of an image that the source denotes.
    ensures denoted { IfOk result (λ t. (image : List (Option ℕ)) × Denotes map.now source.now image
        × (t.asm.tape.items ≡ tape_text image)) }
    // The listing is that of the source if one is asked for; otherwise there is none.
    ensures listed { IfOk result (λ t. IsAsked map.now source.now asked.is_listed
        (option_map (λ l. l.items) t.asm.listing)) }
    // So are the names, with the numbers that the source gives them.
    ensures symbols { IfOk result (λ t. AreSymbols map.now source.now asked.symbols
        (option_map (λ l. l.items) t.symbols)) }
    // So are the places of the lines.
    ensures places { IfOk result (λ t. IsMapAsked map.now source.now asked.is_mapped
        (option_map (λ l. l.items) t.map)) }
    // The image of the source is there in each form that is asked for.
    ensures images { IfOk result (λ t. AreImagesOf map.now source.now asked.images t.images) }
    // A source that denotes an image has its tape, unless memory runs out.
    ensures only { (image : List (Option ℕ)) → Denotes map.now source.now image
        → MatchResult result (λ t. t.asm.tape.items ≡ tape_text image) (λ f. f ≡ out_of_memory) }
    // A source with a fault is rejected with it, unless memory runs out, and no other is.
    ensures faulty { (f : AsmFault) → HasFault map.now source.now f
        → (result ≡ Err f) ⊎ (result ≡ Err out_of_memory) }
    ensures refused { IfErr result (λ f. (f ≡ out_of_memory) ⊎ HasFault map.now source.now f) }
{
    match asm_texts(alloc, source, map, asked.is_listed) {
        Ok(asm) => match other_texts(alloc, source, map, asked) {
            Ok(others) => match images_of(alloc, source, map, asked.images) {
                Ok(images) => Ok(FileTexts {
                    asm,
                    symbols: others.symbols,
                    map: others.map,
                    images,
                }),
                Err(_) => Err(OUT_OF_MEMORY),
            },
            Err(_) => Err(OUT_OF_MEMORY),
        },
        Err(fault) => Err(fault),
    }
}

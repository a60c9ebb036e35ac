//! The facts of an image as text.

ghost use Rattle.std.specs.Prelude.{◌≡◌, ◌++◌, IfOk, OnOk, string_bytes};
ghost use Rattle.word_info.specs.Rows.{amount_text, base_text, between_text, byte_count, clash_text};
ghost use Rattle.word_info.specs.Rows.{gap_row, overlap_row, overlap_rows};
ghost use Rattle.word_info.specs.Rows.{known_gap_row, part_row, part_rows, port_row, range_row};
ghost use Rattle.word_info.specs.Rows.{range_rows, records_text, rows_of, stretch_text, sum_text};
ghost use Rattle.word_info.specs.Rows.{image_name, no_image_text, tape_row, target_text, vector_rows};
ghost use Rattle.word_info.specs.Rows.{address_line_row, data_line_row, line_row, line_rows};
ghost use Rattle.word_info.specs.Rows.{behind_row, region_row, region_rows, some_behind_row};
ghost use Rattle.word_info.specs.Rows.{value_text};

use crate::checksum::Sums;
use crate::fact_list::Facts;
use crate::gaps::Gap;
use crate::ranges::Range;
use crate::wording;
use arguments::shown_name;
use dump_faults::{Bus, Region, Stuck, block_of};
use image_files::NoImage;
use memory_map::{Image, MapSpec};
use model::Profile;
use std::alloc::{AllocError, Global};
use tape_words::{BYTE, BYTES, RECORD, RECORDS, push_count, push_instruction};
use word_mend::record_line;

/// What is to be known of an image's records.
#[derive(Drop)]
pub struct OfTape {
    /// How many data records a tape has, or `None` of an image in another form.
    pub records: Option<usize>,
    /// The ranges of the addresses at which more than one record puts a byte.
    pub overlaps: Vec<Range>,
}

/// Appends how many data records a tape has; of another image nothing.
fn push_records(words: &mut String, records: Option<usize>) -> Result<(), AllocError>
    ensures { OnOk result
        (string_bytes words.new ≡ string_bytes words.old ++ records_text records) }
{
    match records {
        None => Ok(()),
        Some(records) => {
            words.push_str(wording::AND)?;
            push_count(words, records as u64, RECORD, RECORDS)
        }
    }
}

/// Returns the name of the first row.
fn image_name(records: Option<usize>) -> &'static str
    ensures { result.now ≡ image_name records }
{
    match records {
        None => wording::IMAGE_ROW,
        Some(_) => wording::TAPE_ROW,
    }
}

/// Appends the row of the whole image: how many bytes and ranges it has, and how many records if it
/// is a tape.
fn push_tape(words: &mut String, facts: &Facts, records: Option<usize>) -> Result<(), AllocError>
    ensures { OnOk result
        (string_bytes words.new ≡ string_bytes words.old ++ tape_row facts.now records) }
{
    words.push_str(image_name(records))?;
    push_count(words, facts.bytes as u64, BYTE, BYTES)?;
    words.push_str(wording::IN)?;
    push_count(
        words,
        facts.ranges.len() as u64,
        wording::RANGE,
        wording::RANGES,
    )?;
    push_records(words, records)?;
    words.push_str("\n")
}

/// Appends two addresses behind words.
#[tactic(auto, unfolding(crate::specs::Rows::stretch_text))]
fn push_stretch(words: &mut String, front: &str, first: u32, last: u32) -> Result<(), AllocError>
    ensures { OnOk result (string_bytes words.new
        ≡ string_bytes words.old ++ stretch_text front.now first last) }
{
    write!(words, "{front}{first:04X}-{last:04X}  ")
}

/// Appends how many bytes there are.
fn push_bytes(words: &mut String, count: u64) -> Result<(), AllocError>
    ensures { OnOk result (string_bytes words.new ≡ string_bytes words.old ++ byte_count count) }
{
    push_count(words, count, BYTE, BYTES)
}

/// Appends check sums, and ends the row.
#[tactic(auto, unfolding(crate::specs::Rows::sum_text))]
fn push_sums(words: &mut String, sums: Sums) -> Result<(), AllocError>
    ensures { OnOk result (string_bytes words.new ≡ string_bytes words.old ++ sum_text sums) }
{
    let (crc_32, sum_16) = (sums.crc_32, sums.sum_16);
    let sum_8 = sum_16 % 256;
    words.push_str(wording::CRC_32)?;
    write!(words, "{crc_32:08x}")?;
    words.push_str(wording::SUM_16)?;
    write!(words, "{sum_16:04X}")?;
    words.push_str(wording::SUM_8)?;
    writeln!(words, "{sum_8:02X}")
}

/// Appends the row of a range: its addresses, its size and its check sums.
#[tactic(auto, unfolding(crate::specs::Rows::range_row))]
fn push_range(words: &mut String, range: Range, sums: Sums) -> Result<(), AllocError>
    ensures { OnOk result (string_bytes words.new
        ≡ string_bytes words.old ++ range_row (range, sums)) }
{
    push_stretch(
        words,
        wording::RANGE_ROW,
        range.first as u32,
        range.last as u32,
    )?;
    push_bytes(words, range.last.saturating_sub(range.first) as u64 + 1)?;
    push_sums(words, sums)
}

/// Appends a row for each range: its addresses, its size and its check sums.
fn push_ranges(words: &mut String, facts: &Facts) -> Result<(), AllocError>
    ensures { OnOk result (string_bytes words.new
        ≡ string_bytes words.old ++ range_rows facts.now) }
{
    for (range, sums) in facts.ranges.iter().zip(facts.checksums.iter()) {
        push_range(words, *range, *sums)?;
    }
    Ok(())
}

/// Appends the row of a region of one value: its addresses, its size and the byte.
#[tactic(auto, unfolding(crate::specs::Rows::region_row))]
fn push_region(words: &mut String, region: Region) -> Result<(), AllocError>
    ensures { OnOk result (string_bytes words.new ≡ string_bytes words.old ++ region_row region) }
{
    push_stretch(
        words,
        wording::REGION_ROW,
        region.first as u32,
        region.last as u32,
    )?;
    push_bytes(words, region.last.saturating_sub(region.first) as u64 + 1)?;
    let value = region.value;
    words.push_str(wording::EACH)?;
    writeln!(words, "{value:02X}")
}

/// Appends a row for each region of one value.
fn push_regions(words: &mut String, regions: &[Region]) -> Result<(), AllocError>
    ensures { OnOk result (string_bytes words.new
        ≡ string_bytes words.old ++ region_rows regions.now) }
{
    for region in regions {
        push_region(words, *region)?;
    }
    Ok(())
}

/// Returns what is said of a data line by its value.
fn value_text(value: bool) -> &'static str
    ensures { result.now ≡ value_text value }
{
    if value { wording::IS_1 } else { wording::IS_0 }
}

/// Appends the row of a data line that has one value in every byte.
#[tactic(auto, unfolding(crate::specs::Rows::data_line_row))]
fn push_data_line(words: &mut String, line: u8, value: bool) -> Result<(), AllocError>
    ensures { OnOk result (string_bytes words.new
        ≡ string_bytes words.old ++ data_line_row line value) }
{
    words.push_str(wording::LINE_ROW)?;
    write!(words, "D{line}")?;
    words.push_str(value_text(value))
}

/// Appends the row of an address line without effect.
#[tactic(auto, unfolding(crate::specs::Rows::address_line_row))]
fn push_address_line(words: &mut String, line: u8) -> Result<(), AllocError>
    ensures { OnOk result (string_bytes words.new
        ≡ string_bytes words.old ++ address_line_row line) }
{
    words.push_str(wording::LINE_ROW)?;
    write!(words, "A{line}")?;
    words.push_str(wording::NO_EFFECT)?;
    push_bytes(words, block_of(line) as u64)?;
    words.push_str(wording::TWICE)
}

/// Appends the row of a line.
fn push_line(words: &mut String, stuck: Stuck) -> Result<(), AllocError>
    ensures { OnOk result (string_bytes words.new ≡ string_bytes words.old ++ line_row stuck) }
{
    match stuck.bus {
        Bus::Data => push_data_line(words, stuck.line, stuck.value),
        Bus::Address => push_address_line(words, stuck.line),
    }
}

/// Appends a row for each of some lines.
fn push_lines(words: &mut String, lines: &[Stuck]) -> Result<(), AllocError>
    ensures { OnOk result (string_bytes words.new ≡ string_bytes words.old ++ line_rows lines.now) }
{
    for stuck in lines {
        push_line(words, *stuck)?;
    }
    Ok(())
}

/// Appends the row of addresses at which more than one record puts a byte.
#[tactic(auto, unfolding(crate::specs::Rows::overlap_row))]
fn push_overlap(words: &mut String, range: Range) -> Result<(), AllocError>
    ensures { OnOk result (string_bytes words.new ≡ string_bytes words.old ++ overlap_row range) }
{
    push_stretch(
        words,
        wording::OVERLAP_ROW,
        range.first as u32,
        range.last as u32,
    )?;
    push_bytes(words, range.last.saturating_sub(range.first) as u64 + 1)?;
    words.push_str(wording::AGAIN)
}

/// Appends a row for each range of such addresses.
fn push_overlaps(words: &mut String, overlaps: &[Range]) -> Result<(), AllocError>
    ensures { OnOk result (string_bytes words.new
        ≡ string_bytes words.old ++ overlap_rows overlaps.now) }
{
    for range in overlaps {
        push_overlap(words, *range)?;
    }
    Ok(())
}

/// Appends the row of a gap: its addresses and its size.
fn push_known_gap(words: &mut String, gap: Gap) -> Result<(), AllocError>
    ensures { OnOk result (string_bytes words.new ≡ string_bytes words.old ++ known_gap_row gap) }
{
    let last = gap.before.saturating_sub(1);
    push_stretch(words, wording::GAP_ROW, gap.after as u32 + 1, last as u32)?;
    push_bytes(words, gap.size() as u64)?;
    words.push_str("\n")
}

/// Appends the row of the largest gap, if there is one.
fn push_gap(words: &mut String, gap: Option<Gap>) -> Result<(), AllocError>
    ensures { OnOk result (string_bytes words.new ≡ string_bytes words.old ++ gap_row gap) }
{
    match gap {
        None => Ok(()),
        Some(gap) => push_known_gap(words, gap),
    }
}

/// Appends the row of records behind an end record.
#[tactic(auto, unfolding(crate::specs::Rows::some_behind_row))]
fn push_some_behind(words: &mut String, count: u64) -> Result<(), AllocError>
    ensures { OnOk result
        (string_bytes words.new ≡ string_bytes words.old ++ some_behind_row count) }
{
    words.push_str(wording::BEHIND_ROW)?;
    push_count(words, count, RECORD, RECORDS)?;
    words.push_str(wording::NOT_READ)
}

/// Returns the row of records behind an end record, if there are any.
///
/// Errors: `AllocError` if an allocation fails.
pub fn behind_text(alloc: Global, count: u64) -> Result<String, AllocError>
    ensures { IfOk result (λ words. string_bytes words ≡ behind_row count) }
{
    let mut words = String::new(alloc);
    if count == 0 {
        return Ok(words);
    }
    push_some_behind(&mut words, count)?;
    Ok(words)
}

/// Appends where a vector points to, with the instruction there.
fn push_target(
    words: &mut String,
    profile: Profile,
    image: &Image,
    target: Option<u16>,
) -> Result<(), AllocError>
    ensures { OnOk result (string_bytes words.new
        ≡ string_bytes words.old ++ target_text profile image.now target) }
{
    match target {
        None => {
            words.push_str(wording::NOTHING)?;
            words.push_str("\n")
        }
        Some(target) => {
            write!(words, "{target:04X}  ")?;
            push_instruction(words, profile, image, target)?;
            words.push_str("\n")
        }
    }
}

/// Appends the row of a vector: its address, and its target with the instruction there.
fn push_vector(
    words: &mut String,
    name: &str,
    profile: Profile,
    image: &Image,
    target: Option<u16>,
) -> Result<(), AllocError>
    ensures { OnOk result (string_bytes words.new
        ≡ string_bytes words.old ++ (name.now ++ target_text profile image.now target)) }
{
    words.push_str(name)?;
    push_target(words, profile, image, target)
}

/// Appends the rows of the three vectors.
#[tactic(auto, unfolding(crate::specs::Rows::vector_rows))]
fn push_vectors(
    words: &mut String,
    profile: Profile,
    image: &Image,
    facts: &Facts,
) -> Result<(), AllocError>
    ensures { OnOk result (string_bytes words.new
        ≡ string_bytes words.old ++ vector_rows profile image.now facts.now) }
{
    push_vector(words, wording::NMI_ROW, profile, image, facts.nmi)?;
    push_vector(words, wording::RESET_ROW, profile, image, facts.reset)?;
    push_vector(words, wording::IRQ_ROW, profile, image, facts.irq)
}

/// Appends how many bytes stand in a part of memory, and ends the row.
fn push_amount(words: &mut String, bytes: u32) -> Result<(), AllocError>
    ensures { OnOk result (string_bytes words.new ≡ string_bytes words.old ++ amount_text bytes) }
{
    if bytes == 0 {
        words.push_str(wording::NOTHING)?;
        words.push_str("\n")
    } else {
        push_bytes(words, bytes as u64)?;
        words.push_str("\n")
    }
}

/// Appends the row of a part of memory: its addresses, and how many bytes stand there.
fn push_part(
    words: &mut String,
    name: &str,
    first: u32,
    last: u32,
    bytes: u32,
) -> Result<(), AllocError>
    ensures { OnOk result (string_bytes words.new
        ≡ string_bytes words.old ++ part_row name.now first last bytes) }
{
    push_stretch(words, name, first, last)?;
    push_amount(words, bytes)
}

/// Appends an address between words.
#[tactic(auto, unfolding(crate::specs::Rows::between_text))]
fn push_between(
    words: &mut String,
    before: &str,
    address: u32,
    behind: &str,
) -> Result<(), AllocError>
    ensures { OnOk result (string_bytes words.new
        ≡ string_bytes words.old ++ between_text before.now address behind.now) }
{
    write!(words, "{before}{address:04X}{behind}")
}

/// Appends which base is free, and ends the row.
fn push_base(words: &mut String, free: Option<u16>) -> Result<(), AllocError>
    ensures { OnOk result (string_bytes words.new ≡ string_bytes words.old ++ base_text free) }
{
    match free {
        None => words.push_str(wording::NO_BASE),
        Some(base) => push_between(words, wording::CLASH, base as u32, wording::FREE),
    }
}

/// Appends how many bytes stand at the port, and which base is free, and ends the row.
#[tactic(auto, unfolding(crate::specs::Rows::clash_text))]
fn push_clash(words: &mut String, bytes: u32, free: Option<u16>) -> Result<(), AllocError>
    ensures { OnOk result (string_bytes words.new
        ≡ string_bytes words.old ++ clash_text bytes free) }
{
    if bytes == 0 {
        words.push_str(wording::NOTHING)?;
        words.push_str("\n")
    } else {
        push_bytes(words, bytes as u64)?;
        push_base(words, free)
    }
}

/// Appends the row of the port's four addresses, where there is a port.
fn push_port(words: &mut String, map: &MapSpec, facts: &Facts) -> Result<(), AllocError>
    ensures { OnOk result (string_bytes words.new
        ≡ string_bytes words.old ++ port_row map.now.port facts.now) }
{
    let port = map.port();
    if port == 65536 {
        return Ok(());
    }
    push_stretch(words, wording::PORT_ROW, port, port + 3)?;
    push_clash(words, facts.at_port, facts.free_base)
}

/// Appends the rows of pages 0 and 1 and of the port.
#[tactic(auto, unfolding(crate::specs::Rows::part_rows))]
fn push_parts(words: &mut String, map: &MapSpec, facts: &Facts) -> Result<(), AllocError>
    ensures { OnOk result (string_bytes words.new
        ≡ string_bytes words.old ++ part_rows map.now.port facts.now) }
{
    push_part(words, wording::PAGE_0_ROW, 0x0000, 0x00ff, facts.in_page_0)?;
    push_part(words, wording::PAGE_1_ROW, 0x0100, 0x01ff, facts.in_page_1)?;
    push_port(words, map, facts)
}

/// Returns the rows of `info`: the image, its ranges, regions of one value, lines without effect,
/// where records overlap, the largest gap, the vectors, and what stands in pages 0 and 1 and at the
/// port.
///
/// Errors: `AllocError` if an allocation fails.
#[tactic(auto, unfolding(crate::specs::Rows::rows_of))]
pub fn image_text(
    alloc: Global,
    profile: Profile,
    image: &Image,
    map: &MapSpec,
    facts: &Facts,
    tape: &OfTape,
) -> Result<String, AllocError>
    ensures { IfOk result (λ words. string_bytes words
        ≡ rows_of profile image.now map.now.port facts.now tape.now.records
        tape.now.overlaps.items) }
{
    let mut words = String::new(alloc);
    push_tape(&mut words, facts, tape.records)?;
    push_ranges(&mut words, facts)?;
    push_regions(&mut words, &facts.regions)?;
    push_lines(&mut words, &facts.lines)?;
    push_overlaps(&mut words, &tape.overlaps)?;
    push_gap(&mut words, facts.gap)?;
    push_vectors(&mut words, profile, image, facts)?;
    push_parts(&mut words, map, facts)?;
    Ok(words)
}

/// Returns what is wrong with a file that is no image.
///
/// Errors: `AllocError` if an allocation fails.
#[tactic(auto, unfolding(crate::specs::Rows::no_image_text))]
pub fn no_image_text(alloc: Global, file: &str, why: NoImage) -> Result<String, AllocError>
    ensures { IfOk result (λ words. string_bytes words ≡ no_image_text file.now why) }
{
    let what = why.what();
    match why {
        NoImage::Record(fault) => record_line(alloc, file, fault),
        NoImage::PastEnd | NoImage::NoAddress | NoImage::Looks(_) | NoImage::TooLong => {
            let file = shown_name(alloc, file)?;
            let mut words = String::new(alloc);
            writeln!(words, "{file}: {what}")?;
            Ok(words)
        }
    }
}

//! Which label and which line of the source an address belongs to.

ghost use Rattle.std.specs.Prelude.{◌≡◌, ◌+◌, ◌++◌, ◌==◌, [], None, IfOk, OnOk, is_some};
ghost use Rattle.std.specs.Prelude.{if◌then◌else◌, length, map, nat_lt, option_map, slice_get};
ghost use Rattle.std.specs.Prelude.{slice_index};
ghost use Rattle.std.specs.Option.{option_copied, option_or, option_to_list};
ghost use Rattle.source_map.specs.Names.{near_view, named_numbers};
ghost use Rattle.model.specs.Image.{cell_at};
ghost use Rattle.trace_rows.specs.Sites.{AreLabels, IsTable, addresses_of, first_at, index_at, is_wanted};
ghost use Rattle.trace_rows.specs.Sites.{label_for, label_near, labelled, line_addresses, line_at};
ghost use Rattle.trace_rows.specs.Sites.{line_by_places, line_for, name_if_free, names_in, names_of};
ghost use Rattle.trace_rows.specs.Sites.{or_below, put_if_none};
ghost use Rattle.trace_rows.specs.SourceLines.{lines_by, lines_in, listed};

use crate::lines::{SourceLine, lines_by, lines_of};
use assembler::Assembly;
use source_map::Places;
use std::alloc::{AllocError, Global};

/// A name of the source for an address at which it puts a byte: a label, which stands before `:`,
/// or a definition where no label's bytes are.
#[derive(Drop)]
pub struct Label {
    pub text: Vec<u8>,
    pub address: u16,
}

/// The labels and lines of a program by address. A program without a source has none.
#[derive(Drop)]
pub struct Sites {
    labels: Vec<Label>,
    lines: Vec<SourceLine>,
    /// One more than the index of the label that an address belongs to, or 0.
    label_of: Vec<u32>,
    /// One more than the index of the line that begins at an address, or 0.
    line_of: Vec<u32>,
}

/// Returns the place of a row in a table of one more than indices, or `None` for 0.
fn place_at(table: &Vec<u32>, address: u16) -> Option<usize>
    ensures { result ≡ index_at table.now.items address }
{
    match table.get(address as usize) {
        None => None,
        Some(0) => None,
        Some(place) => Some(*place as usize - 1),
    }
}

/// Makes a table without an index.
fn empty_table(alloc: Global) -> Result<Vec<u32>, AllocError>
    ensures { IfOk result (λ table. IsTable table.items (λ address. None)) }
{
    match vec![in alloc; 0; 65536] {
        Ok(table) => Ok(table),
        Err(error) => Err(error),
    }
}

/// Puts a number at an address if nothing is there, and returns what stands there then.
fn put_if_none(table: &mut Vec<u32>, address: u16, number: u32) -> u32
    requires { length table.old.items ≡ 65536 }
    ensures put { table.new.items ≡ put_if_none table.old.items address number }
    ensures there { result ≡ if slice_index table.old.items address == 0
        then number else slice_index table.old.items address }
{
    let there = table[address as usize];
    if there == 0 {
        table[address as usize] = number;
        number
    } else {
        there
    }
}

/// Puts one more than an index at an address, if nothing is there.
fn put_first(table: &mut Vec<u32>, address: u16, index: usize)
    requires { length table.old.items ≡ 65536 }
    ensures { table.new.items ≡ if nat_lt index 4294967295
        then put_if_none table.old.items address (index + 1) else table.old.items }
{
    if index < u32::MAX as usize {
        put_if_none(table, address, index as u32 + 1);
    }
}

/// Puts the first of some names at each address where nothing is.
fn put_names(table: &mut Vec<u32>, names: &[Label])
    requires { length table.old.items ≡ 65536 }
    ensures { IsTable table.new.items (λ address. option_or (index_at table.old.items address)
        (first_at (addresses_of (map labelled names.now)) address)) }
{
    for (index, name) in names.iter().enumerate() {
        put_first(table, name.address, index);
    }
}

/// Makes the table of the first line at each address.
fn table_of_lines(alloc: Global, lines: &[SourceLine]) -> Result<Vec<u32>, AllocError>
    ensures { IfOk result (λ table. IsTable table.items
        (first_at (line_addresses (map listed lines.now)))) }
{
    let mut table = empty_table(alloc)?;
    for (index, line) in lines.iter().enumerate() {
        put_first(&mut table, line.address, index);
    }
    Ok(table)
}

/// Appends a name, if its number is an address at which the image has a byte, and the address has
/// nothing in a table.
fn push_name(
    alloc: Global,
    names: &mut Vec<Label>,
    table: &Vec<u32>,
    assembly: &Assembly,
    text: &[u8],
    number: i32,
) -> Result<(), AllocError>
    ensures { OnOk result (map labelled names.new.items ≡ map labelled names.old.items
        ++ name_if_free assembly.now.image (index_at table.now.items) text.now number) }
{
    if number >= 0 && number <= 65535 {
        let address = number as u16;
        if assembly.image().get(address).is_some() && place_at(table, address).is_none() {
            let text = Vec::from_slice(alloc, text)?;
            names.push(Label { text, address })?;
        }
    }
    Ok(())
}

/// Returns whether a name is wanted: a label where labels are, and otherwise none.
fn is_wanted(labels: bool, is_label: bool) -> bool
    ensures { result ≡ is_wanted labels is_label }
{
    if labels { is_label } else { !is_label }
}

/// Appends the name of an index of an assembly, if it is wanted and its address has nothing in a
/// table.
#[tactic(auto, unfolding(crate::specs::Sites::names_of))]
fn push_name_at(
    alloc: Global,
    names: &mut Vec<Label>,
    table: &Vec<u32>,
    assembly: &Assembly,
    labels: bool,
    index: usize,
) -> Result<(), AllocError>
    ensures { OnOk result (map labelled names.new.items ≡ map labelled names.old.items
        ++ names_of assembly.now.image (index_at table.now.items) labels
        (option_to_list (slice_get (named_numbers assembly.now) index))) }
{
    match (assembly.symbol(index), assembly.is_label(index)) {
        (Some((text, number)), Some(is_label)) => {
            if is_wanted(labels, is_label) {
                push_name(alloc, names, table, assembly, text, number)
            } else {
                Ok(())
            }
        }
        _ => Ok(()),
    }
}

/// Appends the labels of an assembly, or else the other names, in the order of definition: those
/// whose address has nothing in a table.
fn push_names(
    alloc: Global,
    names: &mut Vec<Label>,
    table: &Vec<u32>,
    assembly: &Assembly,
    labels: bool,
) -> Result<(), AllocError>
    ensures { OnOk result (map labelled names.new.items ≡ map labelled names.old.items
        ++ names_of assembly.now.image (index_at table.now.items) labels
        (named_numbers assembly.now)) }
{
    for index in 0..assembly.symbol_count() {
        push_name_at(alloc, names, table, assembly, labels, index)?;
    }
    Ok(())
}

/// Returns what an address has from the one below: nothing if the image has no byte there.
fn from_below(assembly: &Assembly, address: u16, below: u32) -> u32
    ensures { result ≡ if is_some (cell_at assembly.now.image address) then below else 0 }
{
    if assembly.image().get(address).is_some() {
        below
    } else {
        0
    }
}

/// Gives each address the name that stands there or below it with no gap in the image between.
fn spread(table: &mut Vec<u32>, assembly: &Assembly)
    requires { length table.old.items ≡ 65536 }
    ensures { IsTable table.new.items
        (or_below assembly.now.image (index_at table.old.items)) }
{
    let mut name = 0u32;
    for place in 0..65536u32 {
        let address = place as u16;
        let below = from_below(assembly, address, name);
        name = put_if_none(table, address, below);
    }
}

/// Appends the labels of an assembly, or else the definitions that stand where a table has nothing,
/// and gives the table the name that each address then belongs to.
fn spread_names(
    alloc: Global,
    names: &mut Vec<Label>,
    table: &mut Vec<u32>,
    assembly: &Assembly,
    labels: bool,
) -> Result<(), AllocError>
    requires { length table.old.items ≡ 65536 }
    ensures names { OnOk result (map labelled names.new.items ≡ map labelled names.old.items
        ++ names_of assembly.now.image (index_at table.old.items) labels
        (named_numbers assembly.now)) }
    ensures table { OnOk result (IsTable table.new.items (or_below assembly.now.image
        (λ address. option_or (index_at table.old.items address)
        (first_at (addresses_of (map labelled names.new.items)) address)))) }
{
    push_names(alloc, names, table, assembly, labels)?;
    put_names(table, names.as_slice());
    spread(table, assembly);
    Ok(())
}

/// Returns the names of an assembly that stand for an address, and a table of those that addresses
/// belong to.
fn names_of_source(alloc: Global, assembly: &Assembly) -> Result<(Vec<Label>, Vec<u32>), AllocError>
    ensures labels { IfOk result (λ p. map labelled p.0.items ≡ names_in assembly.now) }
    ensures label_of { IfOk result (λ p. IsTable p.1.items (label_for assembly.now)) }
{
    let mut labels = Vec::new(alloc);
    let mut label_of = empty_table(alloc)?;
    spread_names(alloc, &mut labels, &mut label_of, assembly, true)?;
    spread_names(alloc, &mut labels, &mut label_of, assembly, false)?;
    Ok((labels, label_of))
}

/// Returns the same of an assembly that may be missing: then there is no name.
#[tactic(auto, using(crate::proofs::Places::labels_are))]
fn labels_of(alloc: Global, names: Option<&Assembly>) -> Result<(Vec<Label>, Vec<u32>), AllocError>
    ensures { IfOk result (λ p. AreLabels (option_map (λ a. a.now) names.entry)
        (map labelled p.0.items) p.1.items) }
{
    match names {
        None => Ok((Vec::new(alloc), Vec::new(alloc))),
        Some(names) => {
            let (labels, label_of) = names_of_source(alloc, names)?;
            Ok((labels, label_of))
        }
    }
}

impl Sites {
    /// Makes the sites of a program without a source.
    pub fn new(alloc: Global) -> Sites
        ensures labels { result.labels.items ≡ [] }
        ensures lines { result.lines.items ≡ [] }
        ensures label_of { result.label_of.items ≡ [] }
        ensures line_of { result.line_of.items ≡ [] }
    {
        Sites {
            labels: Vec::new(alloc),
            lines: Vec::new(alloc),
            label_of: Vec::new(alloc),
            line_of: Vec::new(alloc),
        }
    }

    /// Makes the sites of an assembled source.
    ///
    /// Errors: `AllocError` if an allocation fails.
    pub fn of_source(alloc: Global, assembly: &Assembly) -> Result<Sites, AllocError>
        ensures labels { IfOk result
            (λ sites. map labelled sites.labels.items ≡ names_in assembly.now) }
        ensures lines { IfOk result
            (λ sites. map listed sites.lines.items ≡ lines_in assembly.now) }
        ensures label_of { IfOk result
            (λ sites. IsTable sites.label_of.items (label_for assembly.now)) }
        ensures line_of { IfOk result
            (λ sites. IsTable sites.line_of.items (line_for assembly.now)) }
    {
        let (labels, label_of) = names_of_source(alloc, assembly)?;
        let lines = lines_of(alloc, assembly)?;
        let line_of = table_of_lines(alloc, lines.as_slice())?;
        Ok(Sites {
            labels,
            lines,
            label_of,
            line_of,
        })
    }

    /// Makes the sites of a program by its places, with the names of an assembly, if there is one.
    ///
    /// Errors: `AllocError` if an allocation fails.
    pub fn of_places(
        alloc: Global,
        names: Option<&Assembly>,
        places: &Places,
    ) -> Result<Sites, AllocError>
        ensures labels { IfOk result (λ sites. AreLabels (option_map (λ a. a.now) names.entry)
            (map labelled sites.labels.items) sites.label_of.items) }
        ensures lines { IfOk result
            (λ sites. map listed sites.lines.items ≡ lines_by places.now) }
        ensures line_of { IfOk result
            (λ sites. IsTable sites.line_of.items (line_by_places places.now)) }
    {
        let (labels, label_of) = labels_of(alloc, names)?;
        let lines = lines_by(alloc, places)?;
        let line_of = table_of_lines(alloc, lines.as_slice())?;
        Ok(Sites {
            labels,
            lines,
            label_of,
            line_of,
        })
    }

    /// Returns the labels in the order of definition, and then the definitions that name an
    /// address.
    pub fn labels(&self) -> &[Label]
        ensures { result.now ≡ self.now.labels.items }
    {
        self.labels.as_slice()
    }

    /// Returns the lines that have bytes, in their order.
    pub fn lines(&self) -> &[SourceLine]
        ensures { result.now ≡ self.now.lines.items }
    {
        self.lines.as_slice()
    }

    /// Returns the index of the label that an address belongs to: the first that stands there, or
    /// otherwise the nearest below it, if the source puts bytes at all addresses between. Where
    /// there is none, it is that of a definition, likewise.
    pub fn label_index(&self, address: u16) -> Option<usize>
        ensures { result ≡ index_at self.now.label_of.items address }
    {
        place_at(&self.label_of, address)
    }

    /// Returns the label that an address belongs to, and how far above it the address is.
    pub fn label_near(&self, address: u16) -> Option<(&[u8], u16)>
        ensures { near_view result ≡ label_near self.now address }
    {
        let label = self.labels.get(self.label_index(address)?)?;
        Some((label.text.as_slice(), address.wrapping_sub(label.address)))
    }

    /// Returns the first line whose first byte stands at an address.
    pub fn line_at(&self, address: u16) -> Option<&SourceLine>
        ensures { option_copied result ≡ line_at self.now address }
    {
        self.lines.get(place_at(&self.line_of, address)?)
    }
}

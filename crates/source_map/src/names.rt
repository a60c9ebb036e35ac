//! Names, found by their text or by their address.

ghost use Rattle.std.specs.Prelude.{◌≡◌, ◌∷◌, ◌++◌, [], ℕ, List, OnErr, OnOk, map, slice_get, take};
ghost use Rattle.std.specs.Option.{option_copied, option_to_list};
ghost use Rattle.std.specs.Str.{bytes_eq, str_eq_ignore_ascii_case};
ghost use Rattle.source_map.specs.Names.{Near, Named, address_of, first_address, first_text};
ghost use Rattle.source_map.specs.Names.{has_c_text, has_letters, has_text, is_kind, is_label_at};
ghost use Rattle.source_map.specs.Names.{is_name_at};
ghost use Rattle.source_map.specs.Names.{is_nearer, name_at, name_near, name_of, named};
ghost use Rattle.source_map.specs.Names.{named_numbers, names_in, names_of, near_view, nearer};
ghost use Rattle.source_map.specs.Names.{nearest_from, other_name, other_names};

use assembler::Assembly;
use memory_map::Image;
use std::alloc::{AllocError, Global};
use std::marker::Model;
use symbols::Symbols;

/// A name with its address.
#[derive(Drop)]
pub struct Name {
    pub text: Vec<u8>,
    pub address: u16,
    /// Whether it stands before `:`.
    pub is_label: bool,
    /// Whether a byte of the program stands at the address.
    pub has_byte: bool,
}

/// Names in the order of their definition.
#[derive(Drop)]
pub struct Names {
    entries: Vec<Name>,
}

impl Model for Names {
    ghost use Rattle.std.specs.Prelude.{List, map};
    ghost use Rattle.source_map.specs.Names.{Named, named};

    ghost Value = { List Named };

    ghost view = { λ n. map named n.entries.items };
}

/// Returns whether two words are the same but for capitals.
pub fn is_same_word(one: &[u8], other: &[u8]) -> bool
    ensures { result ≡ str_eq_ignore_ascii_case one.now other.now }
{
    one.eq_ignore_ascii_case(other)
}

/// Returns the address of the first name that has a text.
fn address_with(names: &[Name], text: &[u8]) -> Option<u16>
    ensures { result ≡ first_address (has_text text.now) (map named names.now) }
{
    for name in names {
        if name.text.as_slice() == text {
            return Some(name.address);
        }
    }
    None
}

/// Returns the address of the first name that has a text but for capitals.
fn address_near(names: &[Name], text: &[u8]) -> Option<u16>
    ensures { result ≡ first_address (has_letters text.now) (map named names.now) }
{
    for name in names {
        if is_same_word(name.text.as_slice(), text) {
            return Some(name.address);
        }
    }
    None
}

/// Returns whether a name has a text behind `_`, as a name of C.
fn has_c_text(text: &[u8], name: &Name) -> bool
    ensures { result ≡ has_c_text text.now (named name.now) }
{
    match name.text.as_slice() {
        [] => false,
        [first, rest @ ..] => *first == b'_' && rest == text,
    }
}

/// Returns the address of the first name that has a text behind `_`.
fn address_in_c(names: &[Name], text: &[u8]) -> Option<u16>
    ensures { result ≡ first_address (has_c_text text.now) (map named names.now) }
{
    for name in names {
        if has_c_text(text, name) {
            return Some(name.address);
        }
    }
    None
}

/// Returns the first label at an address.
fn label_at(names: &[Name], address: u16) -> Option<&[u8]>
    ensures { option_copied result ≡ first_text (is_label_at address) (map named names.now) }
{
    for name in names {
        if name.is_label && name.address == address {
            return Some(name.text.as_slice());
        }
    }
    None
}

/// Returns the first name of an address.
fn number_at(names: &[Name], address: u16) -> Option<&[u8]>
    ensures { option_copied result ≡ first_text (is_name_at address) (map named names.now) }
{
    for name in names {
        if name.address == address {
            return Some(name.text.as_slice());
        }
    }
    None
}

/// Returns whether a distance is less than that of the name found so far: less than 64 if none is.
fn is_nearer(distance: u16, found: Option<(&[u8], u16)>) -> bool
    ensures { result ≡ is_nearer distance (near_view found.entry) }
{
    match found {
        Some((_, least)) => distance < least,
        None => distance < 64,
    }
}

/// Returns whether a name of a byte of the program is a label, or else is none.
fn is_kind(is_label: bool, name: &Name) -> bool
    ensures { result ≡ is_kind is_label (named name.now) }
{
    if is_label {
        name.has_byte && name.is_label
    } else {
        name.has_byte && !name.is_label
    }
}

/// Returns the nearer one of the name found so far and another of a kind.
fn nearer<'a>(
    is_label: bool,
    address: u16,
    found: Option<(&'a [u8], u16)>,
    name: &'a Name,
) -> Option<(&'a [u8], u16)>
    ensures { near_view result ≡ nearer is_label address (near_view found.entry) (named name.now) }
{
    if is_kind(is_label, name)
        && name.address <= address
        && is_nearer(address - name.address, found)
    {
        Some((name.text.as_slice(), address - name.address))
    } else {
        found
    }
}

/// Returns the nearest one of a kind among some names, and how far away it is.
fn nearest(is_label: bool, names: &[Name], address: u16) -> Option<(&[u8], u16)>
    ensures { near_view result ≡ nearest_from is_label address None (map named names.now) }
{
    let mut found: Option<(&[u8], u16)> = None;
    for name in names {
        found = nearer(is_label, address, found, name);
    }
    found
}

impl Names {
    /// Makes a table without names.
    pub fn new(alloc: Global) -> Names
        ensures { result ≡ [] }
    {
        Names {
            entries: Vec::new(alloc),
        }
    }

    /// Returns the names in the order of their definition.
    pub fn all(&self) -> &[Name]
        ensures { map named result.now ≡ self.now }
    {
        self.entries.as_slice()
    }

    /// Appends a name.
    pub(crate) fn push(
        &mut self,
        alloc: Global,
        text: &[u8],
        address: u16,
        is_label: bool,
        has_byte: bool,
    ) -> Result<(), AllocError>
        ensures ok { OnOk result (self.new ≡ self.old ++ record {
          text = text.now;
          address = address;
          is_label = is_label;
          has_byte = has_byte;
        } ∷ []) }
        ensures err { OnErr result (self.new ≡ self.old) }
    {
        let text = Vec::from_slice(alloc, text)?;
        self.entries.push(Name {
            text,
            address,
            is_label,
            has_byte,
        })?;
        Ok(())
    }

    /// Appends the name of a number, if the number is an address.
    fn add(
        &mut self,
        alloc: Global,
        image: &Image,
        text: &[u8],
        number: i32,
        is_label: bool,
    ) -> Result<(), AllocError>
        ensures ok { OnOk result
            (self.new ≡ self.old ++ name_of image.now text.now number is_label) }
        ensures err { OnErr result (self.new ≡ self.old) }
    {
        if number >= 0 && number <= 65535 {
            let address = number as u16;
            let has_byte = image.get(address).is_some();
            self.push(alloc, text, address, is_label, has_byte)?;
        }
        Ok(())
    }

    /// Appends the name of an index in an assembly, if its number is an address.
    fn add_at(&mut self, alloc: Global, assembly: &Assembly, index: usize) -> Result<(), AllocError>
        ensures ok { OnOk result (self.new ≡ self.old ++ names_of assembly.now.image
            (option_to_list (slice_get (named_numbers assembly.now) index))) }
        ensures err { OnErr result (self.new ≡ self.old) }
    {
        match (assembly.symbol(index), assembly.is_label(index)) {
            (Some((text, number)), Some(is_label)) => {
                self.add(alloc, assembly.image(), text, number, is_label)
            }
            _ => Ok(()),
        }
    }

    /// Appends the names of an assembly whose numbers are addresses: some of the first of them if
    /// memory ran out.
    pub fn append(&mut self, alloc: Global, assembly: &Assembly) -> Result<(), AllocError>
        ensures ok { OnOk result (self.new ≡ self.old ++ names_in assembly.now) }
        ensures err { OnErr result ((count : ℕ) × (self.new ≡ self.old
            ++ names_of assembly.now.image (take count (named_numbers assembly.now)))) }
    {
        for index in 0..assembly.symbol_count() {
            self.add_at(alloc, assembly, index)?;
        }
        Ok(())
    }

    /// Appends the name of a number of an image, if the number is an address.
    fn add_other(&mut self, alloc: Global, text: &[u8], number: i32) -> Result<(), AllocError>
        ensures ok { OnOk result (self.new ≡ self.old ++ other_name text.now number) }
        ensures err { OnErr result (self.new ≡ self.old) }
    {
        if number >= 0 && number <= 65535 {
            self.push(alloc, text, number as u16, false, false)?;
        }
        Ok(())
    }

    /// Appends the name of an index among names of an image, if its number is an address.
    fn add_other_at(
        &mut self,
        alloc: Global,
        names: &Symbols,
        index: usize,
    ) -> Result<(), AllocError>
        ensures ok { OnOk result (self.new
            ≡ self.old ++ other_names (option_to_list (slice_get names.now index))) }
        ensures err { OnErr result (self.new ≡ self.old) }
    {
        match names.symbol(index) {
            Some((text, number)) => self.add_other(alloc, text, number),
            None => Ok(()),
        }
    }

    /// Appends names of an image whose numbers are addresses: some of the first of them if memory
    /// ran out.
    pub fn append_others(&mut self, alloc: Global, names: &Symbols) -> Result<(), AllocError>
        ensures ok { OnOk result (self.new ≡ self.old ++ other_names names.now) }
        ensures err { OnErr result ((count : ℕ)
            × (self.new ≡ self.old ++ other_names (take count names.now))) }
    {
        for index in 0..names.count() {
            self.add_other_at(alloc, names, index)?;
        }
        Ok(())
    }

    /// Returns the address of a name: of the first that has this text, otherwise of the first that
    /// has it but for capitals, otherwise of the first that has it behind `_`.
    pub fn address_of(&self, text: &[u8]) -> Option<u16>
        ensures { result ≡ address_of self.now text.now }
    {
        match address_with(self.entries.as_slice(), text) {
            Some(address) => Some(address),
            None => match address_near(self.entries.as_slice(), text) {
                Some(address) => Some(address),
                None => address_in_c(self.entries.as_slice(), text),
            },
        }
    }

    /// Returns the first name of an address: a label if there is one, otherwise any name with that
    /// number.
    pub fn name_at(&self, address: u16) -> Option<&[u8]>
        ensures { option_copied result ≡ name_at self.now address }
    {
        match label_at(self.entries.as_slice(), address) {
            Some(name) => Some(name),
            None => number_at(self.entries.as_slice(), address),
        }
    }

    /// Returns the label of the program's byte at an address or the nearest below it, at most 63
    /// bytes away, and how far away that is. Where there is none, another name likewise. Of names
    /// that are as near the first counts.
    pub fn name_near(&self, address: u16) -> Option<(&[u8], u16)>
        ensures { near_view result ≡ name_near self.now address }
    {
        match nearest(true, self.entries.as_slice(), address) {
            Some(found) => Some(found),
            None => nearest(false, self.entries.as_slice(), address),
        }
    }
}

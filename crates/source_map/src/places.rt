//! The names and the lines of a program.

ghost use Rattle.std.specs.Prelude.{◌≡◌, ◌∷◌, ◌++◌, [], ℕ, IfOk, None, OnErr, OnOk, codes, decimal};
ghost use Rattle.std.specs.Prelude.{length, map, nat_lt, take};
ghost use Rattle.std.specs.Option.{option_copied};
ghost use Rattle.arguments.specs.Shown.{shown_bytes};
ghost use Rattle.debug_records.specs.Views.{info_view};
ghost use Rattle.source_map.specs.Debugged.{debug_places};
ghost use Rattle.source_map.specs.Lines.{address_from, data_left, file_name, is_before, is_data_at};
ghost use Rattle.source_map.specs.Lines.{left_in, line_at, line_words, no_places, places_of, row_at};
ghost use Rattle.source_map.specs.Lines.{site_from, site_words, source_view, text_of, texts_at};
ghost use Rattle.source_map.specs.Functions.{function_view};
ghost use Rattle.source_map.specs.Lines.{addresses_of_line, line_from, with_site};
ghost use Rattle.source_map.specs.Names.{named_numbers, names_in, names_of, other_names};

use crate::debug_names::debug_names;
use crate::debugged::{pieces_of, sites_in, told_rows};
use crate::functions::{CFunction, functions_of};
use crate::line_sites::addresses_from;
use crate::names::Names;
use crate::rows::{Row, Site, rows_of, sites_of};
use crate::source_files::{SourceFile, file_name, text_of};
use crate::texts::texts_of;
use arguments::push_shown;
use assembler::Assembly;
use debug_records::DebugInfo;
use formatting::{push_count, push_text};
use memory_map::Image;
use model::Profile;
use std::alloc::{AllocError, Global};
use std::marker::Model;
use symbols::Symbols;

/// What stands where: names, and the lines of the source, if one is known.
#[derive(Drop)]
pub struct Places {
    names: Names,
    rows: Vec<Row>,
    sites: Vec<Site>,
    sources: Vec<SourceFile>,
    is_whole: bool,
    functions: Vec<CFunction>,
}

impl Model for Places {
    ghost use Rattle.std.specs.Prelude.{map};
    ghost use Rattle.source_map.specs.Functions.{function_view};
    ghost use Rattle.source_map.specs.Lines.{PlacesView, source_view};

    ghost Value = { PlacesView };

    ghost view = { λ p. record {
      names = p.names;
      lines = p.rows.items;
      sites = p.sites.items;
      sources = map source_view p.sources.items;
      is_whole = p.is_whole;
      functions = map function_view p.functions.items;
    } };
}

/// Returns the first of some rows whose first byte stands at an address.
fn first_row_at(rows: &[Row], address: u16) -> Option<Row>
    ensures { result ≡ row_at rows.now address }
{
    for row in rows {
        if row.address == address {
            return Some(*row);
        }
    }
    None
}

/// Returns whether a site has a lower line than another one, or a lower address in the same line.
fn is_before(site: Site, other: Option<Site>) -> bool
    ensures { result ≡ is_before site other }
{
    match other {
        None => true,
        Some(other) => {
            site.line < other.line || site.line == other.line && site.address < other.address
        }
    }
}

/// Returns the better one of the site found so far and another, for a line of a file.
fn with_site(file: u32, line: u32, best: Option<Site>, site: Site) -> Option<Site>
    ensures { result ≡ with_site file line best site }
{
    if site.file == file && line <= site.line && is_before(site, best) {
        Some(site)
    } else {
        best
    }
}

/// Returns the site of a line of a file, or of the next one that has bytes.
fn site_from(sites: &[Site], file: u32, line: u32) -> Option<Site>
    ensures { result ≡ site_from file line None sites.now }
{
    let mut best = None;
    for site in sites {
        best = with_site(file, line, best, *site);
    }
    best
}

/// Appends the name of a file, as it is shown, and the number of a line: `FILE:LINE`.
fn push_numbered(text: &mut Vec<u8>, file: &[u8], line: u32) -> Result<(), AllocError>
    ensures { OnOk result (text.new.items
        ≡ text.old.items ++ (shown_bytes file.now ++ (codes ":" ++ decimal line))) }
{
    push_shown(text, file)?;
    push_text(text, ":")?;
    push_count(text, line as u64)
}

/// Returns how many bytes of a row are left from an address on: 0 if it does not stand there.
fn left_in(row: Row, address: u16) -> u32
    ensures { result ≡ left_in address row }
{
    if row.address <= address {
        row.count.saturating_sub((address - row.address) as u32)
    } else {
        0
    }
}

/// Returns whether a row is no instruction and has a byte at an address.
fn is_data_at(row: Row, address: u16) -> bool
    ensures { result ≡ is_data_at address row }
{
    !row.is_instruction && left_in(row, address) > 0
}

/// Returns how many bytes the first row of data that stands at an address has from there on.
fn data_left(rows: &[Row], address: u16) -> u32
    ensures { result ≡ data_left rows.now address }
{
    for row in rows {
        if is_data_at(*row, address) {
            return left_in(*row, address);
        }
    }
    0
}

impl Places {
    /// Makes the places of a program of which nothing is known.
    pub fn new(alloc: Global) -> Places
        ensures { result ≡ no_places }
    {
        Places {
            names: Names::new(alloc),
            rows: Vec::new(alloc),
            sites: Vec::new(alloc),
            sources: Vec::new(alloc),
            is_whole: false,
            functions: Vec::new(alloc),
        }
    }

    /// Makes the places of an assembled source, which was read from the file of that name.
    ///
    /// Errors: `AllocError` if an allocation fails.
    pub fn of_source(alloc: Global, file: &[u8], assembly: &Assembly) -> Result<Places, AllocError>
        ensures { IfOk result (λ places. places ≡ places_of file.now assembly.now) }
    {
        let mut names = Names::new(alloc);
        names.append(alloc, assembly)?;
        let rows = rows_of(alloc, assembly)?;
        let sites = sites_of(alloc, rows.as_slice())?;
        let source = SourceFile {
            name: Vec::from_slice(alloc, file)?,
            texts: texts_of(alloc, assembly)?,
        };
        let mut sources = Vec::new(alloc);
        sources.push(source)?;
        Ok(Places {
            names,
            rows,
            sites,
            sources,
            is_whole: true,
            functions: Vec::new(alloc),
        })
    }

    /// Makes the places of a program by debug information, with its names and functions. The image
    /// has the bytes of the program where it runs; the files are those of the information, by
    /// number.
    ///
    /// Errors: `AllocError` if an allocation fails.
    pub fn of_debug(
        alloc: Global,
        profile: Profile,
        image: &Image,
        info: &DebugInfo<'_>,
        sources: Vec<SourceFile>,
    ) -> Result<Places, AllocError>
        ensures { IfOk result (λ places. places
            ≡ debug_places (record { profile = profile; image = image.now }) (info_view info.now)
            (map source_view sources.items)) }
    {
        let told = told_rows(alloc, info)?;
        let rows = pieces_of(alloc, profile, image, told.as_slice())?;
        let sites = sites_in(alloc, told.as_slice())?;
        let names = debug_names(alloc, image, info.symbols.as_slice())?;
        let functions = functions_of(alloc, info)?;
        Ok(Places {
            names,
            rows,
            sites,
            sources,
            is_whole: false,
            functions,
        })
    }

    /// Appends the names of an assembly: some of the first of them if memory ran out.
    pub fn add_names(&mut self, alloc: Global, assembly: &Assembly) -> Result<(), AllocError>
        ensures ok { OnOk result (self.new ≡ record self.old
            { names = self.old.names ++ names_in assembly.now }) }
        ensures err { OnErr result ((count : ℕ) × (self.new ≡ record self.old {
          names
              = self.old.names ++ names_of assembly.now.image
              (take count (named_numbers assembly.now));
        })) }
    {
        self.names.append(alloc, assembly)
    }

    /// Appends names of an image: some of the first of them if memory ran out.
    pub fn add_others(&mut self, alloc: Global, names: &Symbols) -> Result<(), AllocError>
        ensures ok { OnOk result (self.new ≡ record self.old
            { names = self.old.names ++ other_names names.now }) }
        ensures err { OnErr result ((count : ℕ) × (self.new ≡ record self.old
            { names = self.old.names ++ other_names (take count names.now) })) }
    {
        self.names.append_others(alloc, names)
    }

    /// Returns the names.
    pub fn names(&self) -> &Names
        ensures { result.now ≡ self.now.names }
    {
        &self.names
    }

    /// Returns the name of the first file of the source: no byte if there is none.
    pub fn file(&self) -> &[u8]
        ensures { result.now ≡ file_name self.now.sources 0 }
    {
        self.file_name(0)
    }

    /// Returns the name of the file of a number: no byte if there is none.
    pub fn file_name(&self, file: u32) -> &[u8]
        ensures { result.now ≡ file_name self.now.sources file }
    {
        file_name(self.sources.as_slice(), file)
    }

    /// Returns the files of the source, by number.
    pub fn sources(&self) -> &[SourceFile]
        ensures { map source_view result.now ≡ self.now.sources }
    {
        self.sources.as_slice()
    }

    /// Returns whether lines of a source are known.
    pub fn has_lines(&self) -> bool
        ensures { result ≡ nat_lt 0 (length self.now.lines) }
    {
        !self.rows.is_empty()
    }

    /// Returns whether each byte of the program is known to be one of a line.
    pub fn is_whole(&self) -> bool
        ensures { result ≡ self.now.is_whole }
    {
        self.is_whole
    }

    /// Returns the rows by address: in the order of the lines, or of the addresses.
    pub fn rows(&self) -> &[Row]
        ensures { result.now ≡ self.now.lines }
    {
        self.rows.as_slice()
    }

    /// Returns the sites: the addresses at which bytes of lines begin.
    pub fn sites(&self) -> &[Site]
        ensures { result.now ≡ self.now.sites }
    {
        self.sites.as_slice()
    }

    /// Returns the first row whose first byte stands at an address.
    pub fn row_at(&self, address: u16) -> Option<Row>
        ensures { result ≡ row_at self.now.lines address }
    {
        first_row_at(self.rows.as_slice(), address)
    }

    /// Returns the line of the first row whose first byte stands at an address.
    pub fn line_at(&self, address: u16) -> Option<u32>
        ensures { result ≡ line_at self.now.lines address }
    {
        Some(self.row_at(address)?.line)
    }

    /// Returns the address of a line of a file, counted from 1, or of the next line with bytes: the
    /// lowest one.
    pub fn address_from(&self, file: u32, line: u32) -> Option<u16>
        ensures { result ≡ address_from self.now.sites file line }
    {
        Some(site_from(self.sites.as_slice(), file, line)?.address)
    }

    /// Returns a line of a file, counted from 1, if it has bytes, or the next line that has some.
    pub fn line_from(&self, file: u32, line: u32) -> Option<u32>
        ensures { result ≡ line_from self.now.sites file line }
    {
        Some(site_from(self.sites.as_slice(), file, line)?.line)
    }

    /// Returns all addresses at which bytes of a line of a file begin, or of the next line with
    /// bytes, but for those that are among others of the line. They ascend.
    ///
    /// Errors: `AllocError` if an allocation fails.
    pub fn sites_of_line(&self, alloc: Global, file: u32, line: u32) -> Result<Vec<u16>, AllocError>
        ensures { IfOk result
            (λ found. found.items ≡ addresses_of_line self.now.sites file line) }
    {
        let sites = self.sites.as_slice();
        addresses_from(alloc, sites, site_from(sites, file, line))
    }

    /// Returns the functions of C.
    pub fn functions(&self) -> &[CFunction]
        ensures { map function_view result.now ≡ self.now.functions }
    {
        self.functions.as_slice()
    }

    /// Appends the line of a row with its file: `FILE:LINE`. What would control a terminal in the
    /// file's name is shown as `?`.
    ///
    /// Errors: `AllocError` if an allocation fails.
    pub fn push_site(&self, text: &mut Vec<u8>, row: Row) -> Result<(), AllocError>
        ensures { OnOk result
            (text.new.items ≡ text.old.items ++ site_words self.now.sources row) }
    {
        push_numbered(text, self.file_name(row.file), row.line)
    }

    /// Appends the line of the first row whose first byte stands at an address, if there is one:
    /// `, FILE:LINE`.
    ///
    /// Errors: `AllocError` if an allocation fails.
    pub fn push_line_at(&self, text: &mut Vec<u8>, address: u16) -> Result<(), AllocError>
        ensures { OnOk result (text.new.items ≡ text.old.items
            ++ line_words self.now.sources (row_at self.now.lines address)) }
    {
        let Some(row) = self.row_at(address) else {
            return Ok(());
        };
        push_text(text, ", ")?;
        self.push_site(text, row)
    }

    /// Returns how many bytes the first row of data that stands at an address has from there on: 0
    /// if no such row does. Data is what is no instruction.
    pub fn data_left(&self, address: u16) -> u32
        ensures { result ≡ data_left self.now.lines address }
    {
        data_left(self.rows.as_slice(), address)
    }

    /// Returns the text of a line of a file, counted from 1, without its end.
    pub fn text_of(&self, file: u32, line: u32) -> Option<&[u8]>
        ensures { option_copied result ≡ text_of (texts_at self.now.sources file) line }
    {
        text_of(self.sources.as_slice(), file, line)
    }
}

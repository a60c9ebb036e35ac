//! How names are written.

/// How the names of a source are written.
#[derive(Clone, Copy)]
pub enum SymbolsFormat {
    /// `NAME = $0200`, as in a listing.
    Plain,
    /// `al C:0200 .NAME`, as the monitor of VICE reads them.
    Vice,
}

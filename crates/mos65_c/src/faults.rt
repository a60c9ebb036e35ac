//! All faults of a source at once, as text, and all warnings. They are those of the text that is
//! read in its place, as `clean_source` says.

ghost use Rattle.std.specs.Prelude.{◌≡◌, ◌≢◌, IfOk, length, List, take, ℕ};
ghost use Rattle.clean_source.specs.Cleaned.{cleaned};
ghost use Rattle.fault_notes.specs.Blocks.{IsToldText};
ghost use Rattle.fault_notes.specs.Given.{told_faults_of};
ghost use Rattle.mos65_c.specs.Answers.{written};
ghost use Rattle.mos65_c.specs.Status.{config_map, config_status};
ghost use Rattle.warning_notes.specs.Blocks.{IsWarnedText};
ghost use Rattle.warnings.specs.Warnings.{warnings_of};

use crate::config::{Config, map_of};
use crate::machine::OUT_OF_MEMORY;
use crate::texts::tell;
use bus::MapSpec;
use clean_source::clean_source;
use fault_notes::all_faults_text;
use std::alloc::{AllocError, Global};
use warning_notes::warnings_text;
use warnings::source_warnings;

/// Returns the text of all faults of a source on a map, under the name of its file.
fn told_of(alloc: Global, name: &[u8], source: &[u8], map: &MapSpec) -> Result<Vec<u8>, AllocError>
    ensures { IfOk result (λ told. IsToldText name.now (cleaned source.now) map.now.profile
        (told_faults_of map.now (cleaned source.now)) told.items) }
{
    let text = clean_source(alloc, source)?;
    all_faults_text(alloc, name, &text, map)
}

/// Writes the beginning of the text of all faults of a source for which `out` has room, under the
/// name of its file, and tells how long the whole text is: 0 where the source has no fault.
#[unsafe(no_mangle)]
pub extern "C" fn mos65_faults(
    alloc: Global,
    config: &Config,
    name: &[u8],
    source: &[u8],
    out: &mut [u8],
    count: &mut usize,
) -> u32
    ensures told { config_status config.now ≡ 0 → result ≢ 3 → (result ≡ 0) × (text : List ℕ)
        × IsToldText name.now (cleaned source.now) (config_map config.now).profile
        (told_faults_of (config_map config.now) (cleaned source.now)) text
        × (count.new ≡ length text) × (out.new ≡ written (take (length out.old) text) out.old) }
    ensures config { config_status config.now ≢ 0 → result ≡ config_status config.now }
    ensures refused { result ≢ 0 → (out.new ≡ out.old) × (count.new ≡ count.old) }
{
    let map = match map_of(config) {
        Ok(map) => map,
        Err(status) => return status,
    };
    match told_of(alloc, name, source, &map) {
        Ok(text) => {
            tell(&text, out, count);
            0
        }
        Err(_) => OUT_OF_MEMORY,
    }
}

/// Returns the text of all warnings of a text on a map, under the name of its file.
fn warned_text(
    alloc: Global,
    name: &[u8],
    text: &[u8],
    map: &MapSpec,
) -> Result<Vec<u8>, AllocError>
    ensures { IfOk result
        (λ told. IsWarnedText name.now text.now (warnings_of map.now text.now) told.items) }
{
    let warnings = source_warnings(alloc, text, map)?;
    warnings_text(alloc, name, text, &warnings)
}

/// Returns the text of all warnings of a source on a map, under the name of its file.
fn warned_of(
    alloc: Global,
    name: &[u8],
    source: &[u8],
    map: &MapSpec,
) -> Result<Vec<u8>, AllocError>
    ensures { IfOk result (λ told. IsWarnedText name.now (cleaned source.now)
        (warnings_of map.now (cleaned source.now)) told.items) }
{
    let text = clean_source(alloc, source)?;
    warned_text(alloc, name, &text, map)
}

/// Writes the beginning of the text of all warnings of a source for which `out` has room, under the
/// name of its file, and tells how long the whole text is: 0 where there is no warning. They are
/// right where the source has no fault.
#[unsafe(no_mangle)]
pub extern "C" fn mos65_warnings(
    alloc: Global,
    config: &Config,
    name: &[u8],
    source: &[u8],
    out: &mut [u8],
    count: &mut usize,
) -> u32
    ensures told { config_status config.now ≡ 0 → result ≢ 3 → (result ≡ 0) × (text : List ℕ)
        × IsWarnedText name.now (cleaned source.now)
        (warnings_of (config_map config.now) (cleaned source.now)) text
        × (count.new ≡ length text) × (out.new ≡ written (take (length out.old) text) out.old) }
    ensures config { config_status config.now ≢ 0 → result ≡ config_status config.now }
    ensures refused { result ≢ 0 → (out.new ≡ out.old) × (count.new ≡ count.old) }
{
    let map = match map_of(config) {
        Ok(map) => map,
        Err(status) => return status,
    };
    match warned_of(alloc, name, source, &map) {
        Ok(text) => {
            tell(&text, out, count);
            0
        }
        Err(_) => OUT_OF_MEMORY,
    }
}

//! The best row of each address.

ghost use Rattle.std.specs.Prelude.{◌≡◌, ◌<◌, IfOk, None, Some, length, min, set};
ghost use Rattle.debug_records.specs.Info.{record_at};
ghost use Rattle.debug_records.specs.Rows.{IsTable, behind, best_of, better, with_row};

use crate::info::grow;
use crate::row::{Row, Wanted};
use crate::rows::better;
use std::alloc::{AllocError, Global};

/// How many addresses there are.
const ADDRESSES: usize = 65536;

/// Makes a table without rows.
fn empty_table(alloc: Global) -> Result<Vec<Option<Row>>, AllocError>
    ensures { IfOk result (λ table. IsTable table.items (λ address. None)) }
{
    let mut table: Vec<Option<Row>> = Vec::new(alloc);
    grow(&mut table, ADDRESSES)?;
    Ok(table)
}

/// Takes a row at an address of a table.
fn take_row(table: &mut Vec<Option<Row>>, wanted: Wanted, address: usize, row: Row)
    requires { address < length table.old.items }
    ensures { table.new.items ≡ set table.old.items address
        (Some (better wanted (record_at table.old.items address) row)) }
{
    let best = better(wanted, table[address], row);
    table[address] = Some(best);
}

/// Returns the address behind the last one at which a row is looked for.
fn behind(wanted: Wanted, row: Row) -> u64
    ensures { result ≡ behind wanted row }
{
    match wanted {
        Wanted::Shown => row.end,
        Wanted::Begun => {
            if row.start < row.end {
                row.start + 1
            } else {
                row.start
            }
        }
    }
}

/// Returns a number, but 65,536 for a larger one.
fn capped(number: u64) -> usize
    ensures { result ≡ min number 65536 }
{
    number.min(65536) as usize
}

/// Takes a row at each address at which it is looked for.
fn put_row(table: &mut Vec<Option<Row>>, wanted: Wanted, row: Row)
    requires { length table.old.items ≡ 65536 }
    ensures { IsTable table.new.items
        (λ address. with_row wanted address (record_at table.old.items address) row) }
{
    let past = capped(behind(wanted, row));
    let first = capped(row.start).min(past);
    for address in first..past {
        take_row(table, wanted, address, row);
    }
}

/// Returns the best row of each address. The only error is that an allocation failed.
pub fn table_of(alloc: Global, wanted: Wanted, rows: &[Row]) -> Result<Vec<Option<Row>>, AllocError>
    ensures { IfOk result
        (λ table. IsTable table.items (λ address. best_of wanted address None rows.now)) }
{
    let mut table = empty_table(alloc)?;
    for row in rows {
        put_row(&mut table, wanted, *row);
    }
    Ok(table)
}

//! The pieces in which an image is written.

ghost use Rattle.std.specs.Prelude.{◌≡◌, ◌+◌, ◌≤◌, ◌++◌, length, take, drop, IfOk};
ghost use Rattle.model.specs.TapeText.{data_line};
ghost use Rattle.papertape.specs.Writing.{front_bytes, first_cell, IsNext};

use crate::record::write_record;
use std::alloc::AllocError;
use std::marker::Model;

/// The most bytes that a written record holds. Source: mos65.
const PIECE: usize = 24;

/// At most 24 bytes from an address on, which one record holds.
#[derive(Drop)]
pub struct Piece {
    address: u16,
    bytes: [u8; PIECE],
    count: usize,
}

impl Model for Piece {
    ghost use Rattle.std.specs.Prelude.{take, ◌≤◌};
    ghost use Rattle.model.specs.TapeText.{Stretch};

    ghost Value = { Stretch };

    ghost view = { λ p. (p.address, take p.count p.bytes) };

    ghost invariant = { λ p. p.count ≤ 24 };
}

/// Returns the byte at an address; an address past the memory has none.
fn byte_at(cells: &[Option<u8>], address: u32) -> Option<u8>
    requires { length cells.now ≡ 65536 }
    ensures { result ≡ first_cell (drop address cells.now) }
{
    if address > 65535 {
        return None;
    }
    cells[address as usize]
}

/// Copies the bytes from an address on, up to the first address with none, and counts them.
fn fill(cells: &[Option<u8>], address: u16, bytes: &mut [u8]) -> usize
    requires size { length cells.now ≡ 65536 }
    requires room { length bytes.old ≡ 24 }
    ensures copied { take result bytes.new ≡ front_bytes 24 (drop address cells.now) }
    ensures few { result ≤ 24 }
{
    for i in 0..PIECE {
        match byte_at(cells, address as u32 + i as u32) {
            None => return i,
            Some(byte) => bytes[i] = byte,
        }
    }
    PIECE
}

impl Piece {
    /// Returns the piece that begins at an address.
    fn at(cells: &[Option<u8>], address: u16) -> Piece
        requires { length cells.now ≡ 65536 }
        ensures { result ≡ (address, front_bytes 24 (drop address cells.now)) }
    {
        let mut bytes = [0u8; PIECE];
        let count = fill(cells, address, &mut bytes);
        Piece {
            address,
            bytes,
            count,
        }
    }

    /// Returns the first piece from an address on, if there is one.
    pub fn next(cells: &[Option<u8>], from: u32) -> Option<Piece>
        requires size { length cells.now ≡ 65536 }
        requires inside { from ≤ 65536 }
        ensures { IsNext cells.now from result }
    {
        for address in from..65536 {
            if byte_at(cells, address).is_some() {
                return Some(Piece::at(cells, address as u16));
            }
        }
        None
    }

    /// Returns the address after the piece.
    pub fn end(&self) -> u32
        ensures { result ≡ self.now.0 + length self.now.1 }
    {
        self.address as u32 + self.count as u32
    }

    /// Writes the piece as a data record.
    pub fn write(&self, out: &mut Vec<u8>) -> Result<(), AllocError>
        ensures { IfOk result (λ _. out.new.items ≡ out.old.items ++ data_line self.now) }
    {
        write_record(
            out,
            self.count as u8,
            self.address,
            &self.bytes[..self.count],
        )
    }
}

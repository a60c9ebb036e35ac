//! Messages taken from a reader.

ghost use Rattle.std.specs.Prelude.{◌≡◌, ◌++◌, ℕ, IfErr, IfOk, List, MatchOption};
ghost use Rattle.std.specs.Prelude.{MatchResult, OnErr, OnOk, false};
ghost use Rattle.std.specs.Io.KnownBytes.{Consumes, IsAtEnd};
ghost use Rattle.json_messages.specs.Messages.{IsFront, front_of};
ghost use Rattle.json_messages.specs.Taken.{IsOver, IsUnread, IsUntaken, count_with, has_more};
ghost use Rattle.json_messages.specs.Taken.{unread};
ghost use Rattle.json_messages.specs.declared.front.Front.TheVariants.{Message, Open};

use crate::fault::StreamFault;
use crate::front::{Front, front_of};
use std::alloc::{AllocError, Global};
use std::io::Read;
use std::marker::Model;

/// The bytes that were read from a stream and belong to no message that was taken.
#[derive(Drop)]
pub struct Incoming {
    held: Vec<u8>,
    /// How many bytes were read.
    count: u64,
}

impl Model for Incoming {
    ghost use Rattle.json_messages.specs.Taken.{Held};

    ghost Value = { Held };

    ghost view = { λ incoming. record { bytes = incoming.held.items; count = incoming.count } };
}

/// Returns how many bytes were read, once some more are.
fn count_with(count: u64, told: &[u8]) -> u64
    ensures { result ≡ count_with count told.now }
{
    if told.is_empty() {
        count
    } else {
        count.saturating_add(told.len() as u64)
    }
}

impl Incoming {
    /// Makes a stream of which nothing was read.
    pub fn new(alloc: Global) -> Incoming
        ensures { result ≡ unread }
    {
        Incoming {
            held: Vec::new(alloc),
            count: 0,
        }
    }

    /// Returns whether bytes wait to be taken, where so many have come: bytes are held, or fewer
    /// were read than have come.
    pub fn waits(&self, come: u64) -> bool
        ensures { result ≡ has_more self.now come }
    {
        !self.held.is_empty() || self.count < come
    }

    /// Takes the message in front, whose body has the bytes from `start` up to `end`, and returns
    /// the body. Nothing is changed if memory ran out.
    fn take(&mut self, alloc: Global, start: usize, end: usize) -> Result<Vec<u8>, AllocError>
        requires { front_of self.old.bytes ≡ Message start end }
        ensures taken { IfOk result
            (λ body. IsFront self.old.bytes body.items self.new.bytes) }
        ensures count { self.new.count ≡ self.old.count }
        ensures memory { OnErr result (self.new.bytes ≡ self.old.bytes) }
    {
        let body = Vec::from_slice(alloc, &self.held[start..end])?;
        self.held = Vec::from_slice(alloc, &self.held[end..])?;
        Ok(body)
    }

    /// Reads some bytes, and returns whether there were any.
    fn fill<R: Read>(&mut self, reader: &mut R) -> Result<bool, StreamFault>
        ensures read { (told : List ℕ)
            × Consumes (R.remaining reader.old) (R.remaining reader.new) told
            × (self.new.count ≡ count_with self.old.count told)
            × (OnOk result (self.new.bytes ≡ self.old.bytes ++ told)) }
        ensures end { IfOk result (λ is_more. is_more ≡ false
            → (self.new.bytes ≡ self.old.bytes) × IsAtEnd (R.remaining reader.new)) }
        ensures kept { OnErr result (self.new.bytes ≡ self.old.bytes) }
        ensures fault { IfErr result IsUnread }
    {
        let mut chunk = [0u8; 4096];
        match reader.read(&mut chunk) {
            Ok(0) => Ok(false),
            Ok(n) => {
                let told = &chunk[..n];
                self.count = count_with(self.count, told);
                match self.held.extend_from_slice(told) {
                    Ok(()) => Ok(true),
                    Err(_) => Err(StreamFault::OutOfMemory),
                }
            }
            Err(_) => Err(StreamFault::Read),
        }
    }

    /// Takes the next message and returns its body, or nothing if the stream has ended behind a
    /// message. Reads only as long as no whole message stands in front.
    ///
    /// # Errors
    ///
    /// - `NoLength`: the header in front gives no length, or one of more than 16,777,216 bytes.
    /// - `LongHeader`: the header in front has more than 4,096 bytes.
    /// - `Cut`: the stream ends within a message.
    /// - `Read`: a read failed. `OutOfMemory`: an allocation failed.
    pub fn next<R: Read>(
        &mut self,
        alloc: Global,
        reader: &mut R,
    ) -> Result<Option<Vec<u8>>, StreamFault>
        ensures taken { (told : List ℕ)
            × Consumes (R.remaining reader.old) (R.remaining reader.new) told
            × (self.new.count ≡ count_with self.old.count told)
            × MatchResult result
            (λ found. MatchOption found
            (IsOver (self.old.bytes ++ told) (R.remaining reader.new))
            (λ body. IsFront (self.old.bytes ++ told) body.items self.new.bytes))
            (IsUntaken (self.old.bytes ++ told) (R.remaining reader.new)) }
    {
        for _ in 0..u64::MAX {
            match front_of(self.held.as_slice()) {
                Front::Message { start, end } => {
                    return match self.take(alloc, start, end) {
                        Ok(body) => Ok(Some(body)),
                        Err(_) => Err(StreamFault::OutOfMemory),
                    };
                }
                Front::NoLength => return Err(StreamFault::NoLength),
                Front::LongHeader => return Err(StreamFault::LongHeader),
                Front::Open => {}
            }
            match self.fill(reader) {
                Ok(true) => {}
                Ok(false) if self.held.is_empty() => return Ok(None),
                Ok(false) => return Err(StreamFault::Cut),
                Err(fault) => return Err(fault),
            }
        }
        Err(StreamFault::Read)
    }
}

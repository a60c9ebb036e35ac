//! Text on its way to a writer.

ghost use Rattle.std.specs.Prelude.{◌≡◌, [], OnErr, OnOk, Err};
ghost use Rattle.model.specs.Writers.{AppendsFront, Writes};
ghost use Rattle.arguments.specs.declared.refusal.Refusal.{Refusal};
ghost use Rattle.word_trace.specs.Gathered.{Gathers};

use arguments::{Refusal, put, write_text};
use std::alloc::{AllocError, Global};
use std::io::Write;

/// How many bytes are gathered before they are written.
const FULL: usize = 16384;

/// Text that is gathered, and written in large pieces.
#[derive(Drop)]
pub struct Sheet {
    pub text: Vec<u8>,
}

impl Sheet {
    /// Makes an empty sheet.
    pub fn new(alloc: Global) -> Sheet
        ensures { result.text.items ≡ [] }
    {
        Sheet {
            text: Vec::new(alloc),
        }
    }

    /// Writes the text that was gathered. The sheet is empty then, even after an error.
    ///
    /// Errors: `Write` if it cannot be written; a beginning of it was written.
    #[tactic(auto, using(crate::proofs::Gathering::gathers_all))]
    fn write_out<O: Write>(&mut self, output: &mut O) -> Result<(), Refusal>
        ensures writes { Writes (O.contents output.old) (O.contents output.new)
            self.old.text.items result }
        ensures emptied { self.new.text.items ≡ [] }
        ensures fault { OnErr result (result ≡ Err Refusal.Write) }
        ensures gathered { OnOk result (Gathers (O.contents output.old) (O.contents output.new)
            self.old.text.items self.new.text.items []) }
    {
        let written = put(output, self.text.as_slice());
        self.text.clear();
        written.map_err(|_| Refusal::Write)
    }

    /// Writes the text that was gathered, and flushes it. The sheet is empty then.
    ///
    /// Errors: `Write` if it cannot be written; a beginning of it was written.
    pub fn write_all<O: Write>(&mut self, output: &mut O) -> Result<(), Refusal>
        ensures writes { Writes (O.contents output.old) (O.contents output.new)
            self.old.text.items result }
        ensures fault { OnErr result (result ≡ Err Refusal.Write) }
    {
        let written = write_text(output, self.text.as_slice());
        self.text.clear();
        written.map_err(|_| Refusal::Write)
    }

    /// Ends the rows of a step: writes the text that was gathered if it is enough. Otherwise
    /// nothing changes. After an error the sheet is empty.
    ///
    /// Errors: `OutOfMemory` if the rows could not be gathered; they and what was gathered before
    /// are not written. `Write` if the text cannot be written; a beginning of it was written.
    #[tactic(auto, using(crate::proofs::Gathering::gathers_none, crate::proofs::Gathering::cut_of))]
    pub fn end_row<O: Write>(
        &mut self,
        row: Result<(), AllocError>,
        output: &mut O,
    ) -> Result<(), Refusal>
        ensures memory { OnErr row (result ≡ Err Refusal.OutOfMemory) }
        ensures memory_output { OnErr row (output.new ≡ output.old) }
        ensures emptied { OnErr result (self.new.text.items ≡ []) }
        ensures fault { OnOk row (OnErr result (result ≡ Err Refusal.Write)) }
        ensures gathered { OnOk result (Gathers (O.contents output.old) (O.contents output.new)
            self.old.text.items self.new.text.items []) }
        ensures cut { OnOk row (OnErr result (AppendsFront (O.contents output.old)
            (O.contents output.new) self.old.text.items)) }
    {
        match row {
            Err(_) => {
                self.text.clear();
                Err(Refusal::OutOfMemory)
            }
            Ok(()) if self.text.len() < FULL => Ok(()),
            Ok(()) => self.write_out(output),
        }
    }
}

//! What is found by following the code of a state.

ghost use Rattle.std.specs.Prelude.{◌≡◌, IfOk, length, map};
ghost use Rattle.c_frames.specs.Programs.{program_view};
ghost use Rattle.source_map.specs.Functions.{function_view};
ghost use Rattle.call_frames.specs.Tables.{AreTablesIn, IsFollowed, frames_at, frames_of, locals_at};
ghost use Rattle.call_frames.specs.Tables.{local_in, parameters_by, parameters_of, standing};

use crate::found::{autos_of, functions_in, pointer_in, routines_in};
use crate::memory::memory_of;
use c_frames::{
    Auto, Depth, Frame, Function, Local, Program, Rise, Routine, Standing, depth_at, depths,
    frames, known, local_at, pushed_first, rests, word_at,
};
use debugger::{Regs, Session};
use source_map::{CFunction, Places};
use std::alloc::{AllocError, Global};
use std::marker::Model;

/// What is found by following the code of a state: what each instruction has added to the stack
/// pointers, and what it adds to the end of its routine.
#[derive(Drop)]
pub struct Tables {
    memory: Vec<u8>,
    routines: Vec<Routine>,
    functions: Vec<Function>,
    pointer: u8,
    rests: Vec<Depth>,
    depths: Vec<Depth>,
}

impl Model for Tables {
    ghost use Rattle.call_frames.specs.Tables.{TablesView};

    ghost Value = { TablesView };

    ghost view = { λ t. record {
      program = record {
        memory = t.memory.items;
        routines = t.routines.items;
        functions = t.functions.items;
        pointer = t.pointer;
      };
      rests = t.rests.items;
      depths = t.depths.items;
    } };
}

/// How a function takes its parameters.
#[derive(Clone, Copy)]
pub struct Parameters {
    /// The bytes that its caller has pushed on the software stack, which it takes off.
    pub stacked: u16,
    /// The bytes of its last parameter, which is in A, X and `sreg`, and which it pushes itself: 0
    /// if it pushes none.
    pub last: u8,
}

/// Returns where a machine stands.
fn standing(program: &Program<'_>, regs: Regs) -> Standing
    ensures { result ≡ standing (program_view program.now) regs }
{
    Standing {
        pc: regs.pc,
        s: regs.s,
        sp: word_at(program.memory, program.pointer as u16),
    }
}

/// Returns the frames at the registers of a state of a program.
fn frames_of(
    alloc: Global,
    program: &Program<'_>,
    depths: &[Depth],
    regs: Regs,
) -> Result<Vec<Frame>, AllocError>
    ensures { IfOk result
        (λ frames. frames.items ≡ frames_of (program_view program.now) depths.now regs) }
{
    let at = standing(program, regs);
    frames(alloc, program, depths, program.memory, at)
}

/// Returns the parameters that a function takes off and pushes, by what it adds to its end.
fn parameters_by(rise: Rise, last: u8) -> Option<Parameters>
    ensures { result ≡ parameters_by last rise }
{
    if rise.s == 0 {
        Some(Parameters {
            stacked: rise.sp,
            last,
        })
    } else {
        None
    }
}

impl Tables {
    /// Returns the program that was followed.
    fn program(&self) -> Program<'_>
        ensures { program_view result ≡ self.now.program }
    {
        Program {
            memory: self.memory.as_slice(),
            routines: self.routines.as_slice(),
            functions: self.functions.as_slice(),
            pointer: self.pointer,
        }
    }

    /// Returns the address of the software stack pointer.
    pub fn pointer(&self) -> u8
        ensures { result ≡ self.now.program.pointer }
    {
        self.pointer
    }

    /// Returns the frames at the registers of a state whose memory was followed, the innermost
    /// first: where the machine stands, and each call that led there, as far as they are known.
    ///
    /// Errors: `AllocError` if an allocation fails.
    pub fn frames(&self, alloc: Global, regs: Regs) -> Result<Vec<Frame>, AllocError>
        ensures { IfOk result (λ frames. frames.items ≡ frames_at self.now regs) }
    {
        frames_of(alloc, &self.program(), self.depths.as_slice(), regs)
    }

    /// Returns where a local is in a frame, by all locals of its function: nowhere if its address
    /// is below the software stack pointer, or is not known.
    #[tactic(auto, unfolding(crate::specs::Tables::local_in))]
    pub fn local_in(&self, frame: Frame, autos: &[Auto], auto: Auto) -> Option<Local>
        ensures { result ≡ local_in self.now frame autos.now auto }
    {
        local_at(&self.program(), self.rests.as_slice(), frame, autos, auto)
    }

    /// Returns where each local of a function is in a frame, parameters too: nowhere if its address
    /// is below the software stack pointer, or is not known.
    ///
    /// Errors: `AllocError` if an allocation fails.
    pub fn locals_at(
        &self,
        alloc: Global,
        frame: Frame,
        function: &CFunction,
    ) -> Result<Vec<Option<Local>>, AllocError>
        ensures { IfOk result (λ locals. locals.items
            ≡ locals_at self.now frame (function_view function.now)) }
    {
        let held = autos_of(alloc, function.locals.as_slice())?;
        let autos = held.as_slice();
        let mut locals = Vec::new(alloc);
        for auto in autos {
            locals.push(self.local_in(frame, autos, *auto))?;
        }
        Ok(locals)
    }

    /// Returns how the function that begins at an address takes its parameters, if that is known:
    /// it is not for one with `...`.
    pub fn parameters_of(&self, start: u16) -> Option<Parameters>
        ensures { result ≡ parameters_of self.now start }
    {
        let program = self.program();
        let rise = known(depth_at(self.rests.as_slice(), start))?;
        parameters_by(rise, pushed_first(&program, start))
    }
}

/// Follows a program from the first bytes of its functions.
fn followed(
    alloc: Global,
    memory: Vec<u8>,
    routines: Vec<Routine>,
    functions: Vec<Function>,
    pointer: u8,
) -> Result<Tables, AllocError>
    ensures { IfOk result (λ tables. IsFollowed (record {
      memory = memory.items;
      routines = routines.items;
      functions = functions.items;
      pointer = pointer;
    }) tables) }
{
    let program = Program {
        memory: memory.as_slice(),
        routines: routines.as_slice(),
        functions: functions.as_slice(),
        pointer,
    };
    let rests = rests(alloc, &program)?;
    let depths = depths(alloc, &program, rests.as_slice())?;
    Ok(Tables {
        memory,
        routines,
        functions,
        pointer,
        rests,
        depths,
    })
}

/// Returns what is found by following the code in a memory of 65,536 bytes, by the names and the
/// functions of the program: nothing if it has no function of C, or if it is not known where the
/// software stack pointer is.
///
/// Errors: `AllocError` if an allocation fails.
pub fn tables_of(
    alloc: Global,
    memory: Vec<u8>,
    places: &Places,
) -> Result<Option<Tables>, AllocError>
    ensures { IfOk result (λ found. AreTablesIn memory.items places.now found) }
{
    let functions = places.functions();
    if functions.is_empty() {
        return Ok(None);
    }
    let names = places.names().all();
    let Some(pointer) = pointer_in(alloc, names)? else {
        return Ok(None);
    };
    let routines = routines_in(alloc, functions, names)?;
    let functions = functions_in(alloc, functions)?;
    Ok(Some(followed(alloc, memory, routines, functions, pointer)?))
}

/// Returns what is found by following the code of a session's state.
///
/// Errors: `AllocError` if an allocation fails.
pub fn tables_at(
    alloc: Global,
    session: &Session,
    places: &Places,
) -> Result<Option<Tables>, AllocError>
    ensures { IfOk result
        (λ found. AreTablesIn session.now.current.bus.memory places.now found) }
{
    tables_of(alloc, memory_of(alloc, session)?, places)
}

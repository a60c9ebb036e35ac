//! The plain types that the definitions of `specs/` and the crates above share.
//!
//! Nothing runs here but parts of the definition itself: the names and numbers of faults, the
//! status register as a byte, and the cells of an undo record by their index.
#![tactic(auto)]

pub use bus_fault::BusFault;
pub use command::Command;
pub use event::{Event, EventFault, Setting};
pub use expression::{ExprFault, LineFault, Operator, TokenKind};
pub use instruction::{EffectiveAddress, Mnemonic, Mode, Profile, Row};
pub use line::Index;
pub use operation::{BranchOp, ModifyOp, Operation, ReadOp, RegisterOp, StoreOp};
pub use registers::{Flags, Regs, Sum};
pub use run_end::{RunEnd, Why};
pub use session_fault::SessionFault;
pub use source_fault::{AsmFault, AsmFaultKind};
pub use tape::{TAPE_OUT_OF_MEMORY, TapeFault, TapeFaultKind};
pub use undo::{Change, Undo};

pub mod bus_fault;
pub mod command;
pub mod event;
pub mod expression;
pub mod instruction;
pub mod line;
pub mod operation;
pub mod registers;
pub mod run_end;
pub mod session_fault;
pub mod source_fault;
pub mod tape;
pub mod undo;

//! How operations are written, and what a change is called.

pub const ORIGIN_FORM: &str = "*= EXPRESSION";

pub const DEFINITION_FORM: &str = "NAME = EXPRESSION";

pub const BYTE_FORM: &str = ".BYTE EXPRESSION or \"TEXT\", ..";

pub const WORD_FORM: &str = ".WORD EXPRESSION, ..";

pub const DBYTE_FORM: &str = ".DBYTE EXPRESSION, ..";

pub const RES_FORM: &str = ".RES EXPRESSION";

pub const END_FORM: &str = ".END";

/// Stands between a branch and the target of the jump behind it.
pub const AND_JUMP: &str = " *+5 and JMP ";

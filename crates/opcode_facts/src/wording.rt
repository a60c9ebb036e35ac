//! How operands are written in each mode, each once. Definitions in `specs` name them.

pub const FORM_ACC: &str = " A";

pub const FORM_IMM: &str = " #$nn";

pub const FORM_ZP: &str = " $nn";

pub const FORM_ZPX: &str = " $nn,X";

pub const FORM_ZPY: &str = " $nn,Y";

pub const FORM_ABS: &str = " $nnnn";

pub const FORM_ABSX: &str = " $nnnn,X";

pub const FORM_ABSY: &str = " $nnnn,Y";

pub const FORM_IND: &str = " ($nnnn)";

pub const FORM_INDX: &str = " ($nn,X)";

pub const FORM_INDY: &str = " ($nn),Y";

pub const FORM_INDZ: &str = " ($nn)";

pub const FORM_REL: &str = " LABEL";

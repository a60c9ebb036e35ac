//! The directives, as what may be written in any source.

/// What each directive does.
pub const BYTE_EFFECT: &str =
    ".BYTE item, ..: a byte for each expression, or the bytes of a string";

pub const WORD_EFFECT: &str = ".WORD expression, ..: two bytes for each, the low one first";

pub const DBYTE_EFFECT: &str = ".DBYTE expression, ..: two bytes for each, the high one first";

pub const RES_EFFECT: &str = ".RES expression: so many bytes are left free";

pub const END_EFFECT: &str = ".END: no line behind it is read";

/// The directives, each with what it does.
pub const DIRECTIVES: [(&str, &str); 5] = [
    (".BYTE", BYTE_EFFECT),
    (".WORD", WORD_EFFECT),
    (".DBYTE", DBYTE_EFFECT),
    (".RES", RES_EFFECT),
    (".END", END_EFFECT),
];

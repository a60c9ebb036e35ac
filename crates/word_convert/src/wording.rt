//! Words of messages.

/// What a word of `convert` takes, where its value is wrong.
pub const FROM_TAKES: &str = "--from takes hex, srec, tape or prg; or bin with --bin HHHH";

pub const FROM_ONE: &str = "--from is for one file: each of two tells its form, or is FILE@HHHH";

pub const BIN_TAKES: &str = "--bin takes four hex digits, the address of the first byte";

pub const BIN_ALONE: &str = "--bin goes with --from bin alone, and not with --prg or --image";

pub const IN_TELLS: &str =
    "IN tells its place: leave --bin and --prg out; to move it, convert it to .bin first";

pub const TO_TAKES: &str =
    "--to takes bin, hex, srec, tape or prg, which the ending of OUT does not tell";

pub const RANGE_TAKES: &str =
    "LO and HI are two addresses of four hex digits, LO not above HI; files join two by two";

pub const FILL_TAKES: &str = "--fill takes two hex digits";

pub const SUM_TAKES: &str = "--sum8 takes four hex digits, the address of a byte of OUT";

pub const ONE_NAME: &str = "IN and OUT have one name";

/// What is wrong with an image whose file is read beside another one.
pub const CLASH: &str = "the other file has another byte";

/// What is wrong with an image of which nothing is to be written.
pub const NO_BYTE: &str = "has no byte: LO and HI say which addresses to write";

/// What is wrong with an image in which no byte can make the sum 0.
pub const NO_SUM_BYTE: &str = "has no byte to write at the address after --sum8";

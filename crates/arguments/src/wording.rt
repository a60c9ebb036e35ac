//! Words of messages. Definitions in `specs` name them.

/// Why a file cannot be read, after the word `READ`; the second also after `WRITE`.
pub const NO_SUCH_FILE: &str = " no such file";

pub const PERMISSION_DENIED: &str = " permission denied";

/// Why a file of names is none, after the word `READ`.
pub const NO_NAME: &str = " no line is a name in a form that is known";

/// Why a file is not written, after the word `WRITE`.
pub const NO_ROOM: &str = " no room";

pub const IS_FOLDER: &str = " is a folder";

pub const NO_SUCH_FOLDER: &str = " no such folder";

pub const SAME_FILE: &str = " same file as another";

pub const SOURCE_LIKE_TAPE: &str = " the source looks like a tape";

pub const OTHER_FILE: &str = " the file has something else: name a new one, or remove it";

/// What a file looks like that is given as a source, and what to do.
pub const LIKE_TAPE: &str = " looks like a tape";

pub const LIKE_HEX: &str = " looks like Intel HEX";

pub const LIKE_S_RECORDS: &str = " looks like S-records";

pub const LIKE_RAW: &str = " looks like a raw image";

pub const LIKE_CAPTURE: &str = " looks like a capture of a KIM-1's terminal";

pub const USE_TAPE: &str = ": use --image\n";

pub const USE_ADDRESS: &str =
    ": use FILE@HHHH, with the address of its first byte, or --bin HHHH\n";

pub const USE_MEND: &str = ": mend makes a tape of it, as in mend FILE OUT\n";

/// What a fault of a tape means, after its number.
pub const MEND_LEAVES_OUT: &str = ": text stands beside the records, and mend leaves it out";

pub const NO_DIGIT: &str = ": no hex digit stands there; of a source, asm makes a tape";

pub const INFO_SAYS_MORE: &str = ": info says more";

/// That an image has bytes at the port's addresses, which follow, and which base is free.
pub const AT_PORT: &str = ": IMAGE PortAddress 5 at ";

pub const TRY_PORT: &str = "; --port ";

pub const IS_FREE: &str = " is free, or --port none\n";

pub const NONE_IS_FREE: &str = "; --port none leaves the port out\n";

/// What an option takes, where its value is wrong.
pub const PORT_TAKES: &str = "--port takes four hex digits, or none";

pub const ROM_TAKES: &str = "--rom takes two addresses of four hex digits, as 8000-8FFF";

pub const PROFILE_TAKES: &str = "--profile takes N or C";

pub const HISTORY_TAKES: &str = "--history takes a number up to 65536";

pub const MON_HISTORY_TAKES: &str = "--history takes a number up to 1048576";

pub const FORM_TAKES: &str =
    "--bin takes four hex digits; only one of --image, --bin and --prg can be said";

pub const NAME_TELLS: &str =
    "the file's name tells its form: leave --bin and --prg out; FILE@HHHH says raw bytes";

pub const STEPS_TAKES: &str = "--steps takes a number of at most eighteen digits";

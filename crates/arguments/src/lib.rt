//! What the words of command lines have in common: options and their values, why words are
//! refused, files that are read and written, and one refusal with its line and exit status.
//!
//! A crate for a word makes its command line of the options here, and reads the process's words by
//! `matched`, whose clauses say what `clap`'s own definition of a parse finds. `Refusal` says why a
//! word ends without an answer. `refuse` writes its line as `asm`, `dis` and `debug` do, and
//! `refuse_file` with the file's name. `form_for` says how the file of a word is read, by what the
//! word tells and what options say, and `name_of` which file it is.
//!
//! A word that writes one file writes it with `write_output`, or bit by bit with `create`, which
//! take the files that are read. A word that writes several calls `check_outputs` before it opens
//! one, and writes each with `write_file`. A write that fails leaves the file that is there.
#![tactic(auto)]

mod fault;
mod fault_line;
mod file_names;
mod file_options;
mod file_refusal;
mod files;
mod given;
mod load_fault;
mod machine_files;
mod map;
mod matching;
mod new_file;
mod options;
mod output;
mod outputs;
mod refusal;
mod refused;
mod same_file;
mod shown;
mod value;
mod wording;
mod write_fault;

pub use fault::WordsFault;
pub use fault_line::{put_all, put_fault_line, put_named, put_three, put_two};
pub use file_names::{
    FormName, address_at, form_beside, form_for, form_of_ending, name_of, names_image, takes_either,
};
pub use file_options::{FileForm, FileWords, file_words, with_file_options};
pub use file_refusal::FileRefusal;
pub use files::{check_output, read_given, read_given_source, read_most, read_source, write_file};
pub use given::has_option;
pub use load_fault::{LoadFault, tell_no_image, tell_noted};
pub use machine_files::{OtherFiles, other_files, with_files_options};
pub use map::map_of;
pub use matching::{is_given, let_go, matched, says_image};
pub use new_file::{NewFile, begin_file};
pub use options::{begin, file, file_list, flag, list, option, port, profile, rom, tape};
pub use output::{NotWritten, put, write_text};
pub use outputs::{check_outputs, check_replaced, check_source, create, write_output};
pub use refusal::{ReadFault, Refusal};
pub use refused::{finish, refuse, refuse_file, refuse_image_file, refused_words};
pub use same_file::{is_one_file, is_one_output};
pub use shown::{push_shown, put_shown, shown_name};
pub use value::{
    address_asked, debug_history_asked, form_asked, form_in, form_said_by, history_asked,
    port_asked, profile_asked, rom_asked, steps_asked, value_fault, wrong_value,
};
pub use wording::HISTORY_TAKES;
pub use write_fault::{WriteFault, write_reason};

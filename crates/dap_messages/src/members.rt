//! The members of a launch, and which values they can have.

ghost use Rattle.std.specs.Prelude.{◌≡◌};
ghost use Rattle.std.specs.Prelude.{is_some};
ghost use Rattle.dap_messages.specs.Members.{first_wrong, form_of, has_form, is_within, is_wrong};
ghost use Rattle.dap_messages.specs.Members.{is_wrong_at, members, path_of, wrong_member};
ghost use Rattle.json_messages.specs.Fields.{flag_at, number_at, text_at};
ghost use Rattle.serde_json.specs.Find.{pointer};
ghost use Rattle.serde_json.specs.View.{view};

use json_messages::{number_at, text_at};
use serde_json::Value;

/// A member of a launch that is looked at.
#[derive(Clone, Copy)]
pub enum Member {
    Program,
    Tape,
    Bin,
    Prg,
    Port,
    Rom,
    Profile,
    Symbols,
    DebugInfo,
    SourceRoot,
    History,
    Steps,
    StopOnEntry,
}

/// What a member can be.
#[derive(Clone, Copy)]
pub enum Form {
    Text,
    /// True or false.
    Flag,
    /// A number from one to another.
    Number { least: u64, most: u64 },
}

/// All members, in the order in which they are looked at.
const MEMBERS: [Member; 13] = [
    Member::Program,
    Member::Tape,
    Member::Bin,
    Member::Prg,
    Member::Port,
    Member::Rom,
    Member::Profile,
    Member::Symbols,
    Member::DebugInfo,
    Member::SourceRoot,
    Member::History,
    Member::Steps,
    Member::StopOnEntry,
];

impl Member {
    /// Returns what is said of a member that has another value than one that it can have.
    pub fn words(self) -> &'static str {
        match self {
            Member::Program => "program takes a text: the path of a file",
            Member::Tape => "tape takes true or false",
            Member::Bin => "bin takes a text: an address",
            Member::Prg => "prg takes true or false",
            Member::Port => "port takes a text: four hex digits, or none",
            Member::Rom => "rom takes a text: two addresses, as C000-FFFF",
            Member::Profile => "profile takes a text: N or C",
            Member::Symbols => "symbols takes a text: the path of a file of names",
            Member::DebugInfo => "debugInfo takes a text: the path of a file of debug information",
            Member::SourceRoot => "sourceRoot takes a text: the path of a folder",
            Member::History => "history takes a number from 0 to 1048576",
            Member::Steps => "steps takes a number from 1 to 4294967295",
            Member::StopOnEntry => "stopOnEntry takes true or false",
        }
    }
}

/// Returns all members.
#[tactic(auto, unfolding(crate::specs::Members::members))]
fn members() -> &'static [Member]
    ensures { result.now ≡ members }
{
    &MEMBERS
}

/// Returns the path of a member in a message.
fn path_of(member: Member) -> &'static str
    ensures { result.now ≡ path_of member }
{
    match member {
        Member::Program => "/arguments/program",
        Member::Tape => "/arguments/tape",
        Member::Bin => "/arguments/bin",
        Member::Prg => "/arguments/prg",
        Member::Port => "/arguments/port",
        Member::Rom => "/arguments/rom",
        Member::Profile => "/arguments/profile",
        Member::Symbols => "/arguments/symbols",
        Member::DebugInfo => "/arguments/debugInfo",
        Member::SourceRoot => "/arguments/sourceRoot",
        Member::History => "/arguments/history",
        Member::Steps => "/arguments/steps",
        Member::StopOnEntry => "/arguments/stopOnEntry",
    }
}

/// Returns what a member can be.
fn form_of(member: Member) -> Form
    ensures { result ≡ form_of member }
{
    match member {
        Member::Tape | Member::Prg | Member::StopOnEntry => Form::Flag,
        Member::History => Form::Number {
            least: 0,
            most: 1_048_576,
        },
        Member::Steps => Form::Number {
            least: 1,
            most: 4_294_967_295,
        },
        Member::Program | Member::Bin | Member::Port => Form::Text,
        Member::Rom | Member::Profile | Member::Symbols => Form::Text,
        Member::DebugInfo | Member::SourceRoot => Form::Text,
    }
}

/// Returns whether a message has a value at a path.
fn is_given(message: &Value, path: &str) -> bool
    ensures { result ≡ is_some (pointer path.now (view message.now)) }
{
    match message.pointer(path) {
        Some(_) => true,
        None => false,
    }
}

/// Returns whether a message has a text at a path.
fn has_text(message: &Value, path: &str) -> bool
    ensures { result ≡ is_some (text_at path.now (view message.now)) }
{
    match text_at(message, path) {
        Some(_) => true,
        None => false,
    }
}

/// Returns whether a message has a flag at a path.
fn has_flag(message: &Value, path: &str) -> bool
    ensures { result ≡ is_some (flag_at path.now (view message.now)) }
{
    match message.pointer(path).and_then(Value::as_bool) {
        Some(_) => true,
        None => false,
    }
}

/// Returns whether a message has a number from one to another at a path.
fn has_number(message: &Value, path: &str, least: u64, most: u64) -> bool
    ensures { result ≡ is_within least most (number_at path.now (view message.now)) }
{
    match number_at(message, path) {
        Some(number) => least <= number && number <= most,
        None => false,
    }
}

/// Returns whether a message has a value of this form at a path.
fn has_form(message: &Value, path: &str, form: Form) -> bool
    ensures { result ≡ has_form form path.now (view message.now) }
{
    match form {
        Form::Text => has_text(message, path),
        Form::Flag => has_flag(message, path),
        Form::Number { least, most } => has_number(message, path, least, most),
    }
}

/// Returns whether a message has a value of another form at a path.
fn is_wrong_at(message: &Value, path: &str, form: Form) -> bool
    ensures { result ≡ is_wrong_at form path.now (view message.now) }
{
    is_given(message, path) && !has_form(message, path, form)
}

/// Returns whether a launch gives a member another value than one that it can have.
fn is_wrong(message: &Value, member: Member) -> bool
    ensures { result ≡ is_wrong (view message.now) member }
{
    is_wrong_at(message, path_of(member), form_of(member))
}

/// Returns the first of some members to which a launch gives another value than one that it can
/// have, if there is such a member.
fn first_wrong(message: &Value, all: &[Member]) -> Option<Member>
    ensures { result ≡ first_wrong (view message.now) all.now }
{
    for member in all {
        if is_wrong(message, *member) {
            return Some(*member);
        }
    }
    None
}

/// Returns the first member to which a launch gives another value than one that it can have, if
/// there is such a member.
pub fn wrong_member(message: &Value) -> Option<Member>
    ensures { result ≡ wrong_member (view message.now) }
{
    first_wrong(message, members())
}

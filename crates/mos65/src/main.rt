//! The program `mos65`: it hands the process's words to the module that serves them.
//!
//! Each command has a module with a call `serve`, which takes the process, the words from the
//! command's name on, and a cell in which outputs note that nobody reads them. So the part of the
//! program that serves one command is whole files of this crate, and a `main` without the match
//! (`tools/proving/commands.txt`).
#![tactic(auto)]

mod check;
mod cmp;
mod command_line;
mod convert;
mod dap;
mod debug_file;
mod help;
mod info;
mod lsp;
mod mend;
mod mon;
mod page;
mod pipe;
mod process;
mod promised;
mod routes;
mod run;
mod test;
mod trace;
mod unreadable;

use crate::process::serve_process;
use crate::routes::{Route, route_of};
use std::cell::Cell;
use std::process::ExitCode;

/// Does what words ask for, and returns the exit status of the word.
///
/// Proved: which route words have (`route_of`), and what each call does, by the contract of the
/// call. Tested: that a route leads to the call of its name. The process's streams are made by the
/// modules, and no clause can name what they hold.
fn serve_route(rt: &HostRuntime, words: &[&str], unread: &Cell<bool>) -> u8 {
    match route_of(words) {
        Route::Check => check::serve(rt, words, unread),
        Route::Info => info::serve(rt, words, unread),
        Route::Cmp => cmp::serve(rt, words, unread),
        Route::Mend => mend::serve(rt, words, unread),
        Route::Convert => convert::serve(rt, words, unread),
        Route::Test => test::serve(rt, words, unread),
        Route::Mon => mon::serve(rt, words, unread),
        Route::Run => run::serve(rt, words, unread),
        Route::Trace => trace::serve(rt, words, unread),
        Route::Page => page::serve(rt, words, unread),
        Route::Lsp => lsp::serve(rt, words, unread),
        Route::Dap => dap::serve(rt, words, unread),
        Route::DisSource | Route::DisImage => promised::serve(rt, words, unread),
        Route::AsmFiles | Route::DebugImage => promised::serve(rt, words, unread),
        Route::StrictDebug | Route::StrictImage => promised::serve(rt, words, unread),
        Route::Program => promised::serve(rt, words, unread),
        Route::Whole => help::serve(rt, words, unread),
    }
}

fn main(rt: HostRuntime) -> ExitCode {
    serve_process(&rt, |words, unread| serve_route(&rt, words, unread))
}

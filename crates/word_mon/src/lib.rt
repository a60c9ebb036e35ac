//! The word `mon`: a session with a person at a terminal.
//!
//! `serving` loads a file and serves a session on it, which `starting` begins; `screens` says
//! whether a screen is drawn, `views` what it shows after a line. `lines` reads the input and cuts
//! it into lines, `terminal` passes a line to `mon_dispatch`, and writes the answer, or a screen
//! with it, before the next line is read. `notes` keeps the lines that have placed what stands.
//! `mon_files` writes the files that lines ask for; `reloading` loads the session's file again.
//! What the word does stands in `specs/Done.antt`, which lines are served and what is written in
//! `specs/Attended.antt`, what a screen shows in `specs/Views.antt`.
#![tactic(auto)]

mod greeting;
mod lines;
mod notes;
mod reloading;
mod screens;
mod serving;
mod starting;
mod terminal;
mod views;
pub mod wording;

pub use serving::mon;

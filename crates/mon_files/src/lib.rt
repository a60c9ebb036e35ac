//! Files that lines of `mon` write.
//!
//! `page` writes what a session holds as one page for a browser: `held` goes back over the events
//! that the session holds and makes them again, and records each as `page_data` does. `known` says
//! what else the page shows. `saving` writes the image of `save`. `writing` writes a file unless
//! the session has read it.
#![tactic(auto)]

mod held;
mod known;
mod page;
mod saving;
pub mod wording;
mod writing;

pub use known::Known;
pub use page::{Program, show_page};
pub use saving::save_image;
pub use writing::say_name;

//! How a program begins: its words and variables, the real objects that it is handed, and the words that ask for its help or its
//! version.
//!
//! The layer above is promised that a text is there exactly where the one word asks for it (`specs/Texts.antt`).
#![tactic(auto)]

mod program;
mod start;
mod texts;

pub use crate::program::{Program, run_program};
pub use crate::start::{StartFault, words_and_env};
pub use crate::texts::text_asked;

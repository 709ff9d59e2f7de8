//! Cases as lines: each line of a program's input is a call, its arguments and the answer that is wanted, with tabs
//! between them. A line without a tab says something to the reader, and is no case.
//!
//! A program over it answers a case from its words ([`Answers`]), and [`run_cases`] compares: each other answer is said
//! on standard error with the number of its line, and the program then ends with status 1. A case that is of no form is
//! said so too and isn't asked: lines that begin with `form` say which calls there are and what their words may be.
//!
//! In a word `%XX` stands for a byte, and where a program reads repeats ([`with_repeats`]) `{N TEXT}` for the text N times.
//! Other brackets are escaped.
//!
//! It promises what a line's case, words and wanted answer are ([`case_of`], [`words_of`]), and what words write. What a
//! case shows is what the compared answers are. The texts that programs make of words and answers promise nothing: the
//! cases show them.
#![tactic(auto)]

mod forms;
mod kinds;
mod repeats;
mod run;
mod texts;
mod words;

pub use crate::repeats::with_repeats;
pub use crate::run::{Answers, run_cases};
pub use crate::texts::{compared, halves, has_part, on_one_line, part, unknown};
pub use crate::words::{bytes_of_hex, case_of, number, shown, words_of};

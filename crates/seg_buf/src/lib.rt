//! Pieces of bytes, in the order in which they came, read as one list.
//!
//! The layer above is promised that a [`SegBuf`] is one flat list of bytes, however its pieces are
//! cut (`specs/Segments.antt`), and that after [`SegBuf::reserve_one`] a push takes no memory.
#![tactic(auto)]

mod seg_buf;

pub use crate::seg_buf::{PRELUDE, SegBuf};

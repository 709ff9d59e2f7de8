//! What the calls of this crate read and write on their way, for who reads or writes a body in chunks part by part, and who has the
//! whole body in memory.

pub use crate::announcement::joined_names;
pub use crate::decode::begins_with;
pub use crate::sound::{frames_in_memory, next_in_memory};
pub use crate::text::{head_text, last_lines, tail_text};

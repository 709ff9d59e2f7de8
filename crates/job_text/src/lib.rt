//! The texts that programs read: lines of jobs and records, and numbers as words and lines spell them.
//!
//! The layer above is promised that [`read_job`] answers exactly the job that bytes spell, line by line, or the place of the
//! first line that is bad (`specs/Job.antt`); so do [`take_record`] (`specs/Record.antt`) and [`take_profile_texts`]
//! (`specs/ProfileTexts.antt`); and that a number is there exactly where a text spells one that fits
//! (`specs/Numbers.antt`). Nothing here knows of signing.
#![tactic(auto)]

mod chunk_size;
mod fault;
mod job;
mod lines;
mod numbers;
mod operation_job;
mod profile_texts;
mod record;
mod request_lines;
mod text;
mod words;

pub use crate::chunk_size::ChunkSize;
pub use crate::fault::{JobFault, LineFault};
pub use crate::job::{Job, copied_events, hex_bytes, read_job, take_job};
pub use crate::lines::{TakeLine, cut_pair, cut_word, take_lines, text_of};
pub use crate::numbers::{parse_count, parse_i64, parse_u64};
pub use crate::operation_job::{OperationJob, ReplyLine, take_operation_job};
pub use crate::profile_texts::{ProfileTexts, take_profile_texts};
pub use crate::record::{RecordDraft, take_record};
pub use crate::request_lines::{RequestDraft, RequestJob, take_request_job};
pub use crate::text::{copied, lent};
pub use crate::words::{TakeWord, WordsFault, take_words};

//! The trailers as they are announced.
ghost use Rattle.std.specs.Prelude.{◌≡◌, IfOk};
ghost use Rattle.awsign_chunk.specs.Sent.{announced_trailers, sent_checksum};
ghost use Rattle.awsign_words.specs.Words.{sign_wanted};

use crate::sum::RunningSum;
use awsign_words::{Asked, Checksum, checksum_named};
use smithy_core::{Env, Headers, Mem};
use std::alloc::Global;

/// The trailers before the data is read: those of the words, and then the checksum that an option asks for, of nothing, which is as long as
/// that of any data.
pub(crate) fn announced_trailers(alloc: Global, asked: &Asked<'_>) -> Mem<Headers>
    ensures { IfOk result (λ trailers. trailers ≡ announced_trailers (sign_wanted asked.now)) }
{
    let mut trailers = asked.trailers.try_clone()?;
    RunningSum::new(sent_checksum(&asked.options)).push_to(alloc, &mut trailers)?;
    Ok(trailers)
}

/// The checksum that an option asks for.
pub(crate) fn sent_checksum(options: &Env) -> Option<Checksum>
    ensures { result ≡ sent_checksum options.now }
{
    match options.get("--checksum") {
        Some(word) => checksum_named(word),
        None => None,
    }
}

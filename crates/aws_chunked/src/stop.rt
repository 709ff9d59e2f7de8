ghost use Rattle.std.specs.Prelude.{◌≡◌, []};
ghost use Rattle.aws_chunked.specs.Body.{IsBodyClosed, after_stop, stop_answer};
ghost use Rattle.aws_chunked.specs.declared.phase.Phase.TheVariants as phase;

use crate::body::{AwsChunkedBody, ChunkNext};
use crate::error::AwsChunkedBodyError;
use crate::phase::Phase;
use std::alloc::AllocError;

// Why nothing can be made.
#[derive(Drop)]
pub(crate) enum Stop {
    // Nothing has come yet.
    NotYet,
    // Too many frames had no data.
    OutOfTurns,
    // The body can't go on.
    Fault(AwsChunkedBodyError),
}

impl<F, G> AwsChunkedBody<F, G> {
    // Closes the body: nothing more is read, nor answered.
    pub(crate) fn close(&mut self)
        ensures closed { IsBodyClosed self.new }
        ensures others { self.new ≡ record self.old { came = record self.old.came { phase = phase.Closed }; chunks = record self.old.chunks { ready = [] } } }
    {
        self.came.phase = Phase::Closed;
        self.chunks.ready.clear();
    }

    // A stop as an answer of a poll: after a fault the body is closed.
    pub(crate) fn stopped(&mut self, stop: Stop) -> Result<ChunkNext, AwsChunkedBodyError>
        ensures answer { result ≡ stop_answer stop }
        ensures after { self.new ≡ after_stop stop self.old }
    {
        match stop {
            Stop::NotYet => Ok(ChunkNext::NotYet),
            Stop::OutOfTurns => Ok(ChunkNext::OutOfTurns),
            Stop::Fault(error) => {
                self.close();
                Err(error)
            }
        }
    }
}

impl From<AwsChunkedBodyError> for Stop {
    ghost use Rattle.std.specs.Prelude.{◌≡◌};
    ghost use Rattle.aws_chunked.specs.declared.stop.Stop.TheVariants.{Fault};

    ghost from_gives = { λ error stop. stop ≡ Fault error };

    fn from(error: AwsChunkedBodyError) -> Stop {
        Stop::Fault(error)
    }
}

impl From<AllocError> for Stop {
    ghost use Rattle.std.specs.Prelude.{◌≡◌};
    ghost use Rattle.aws_chunked.specs.declared.error.AwsChunkedBodyError.TheVariants.{NoMemory};
    ghost use Rattle.aws_chunked.specs.declared.stop.Stop.TheVariants.{Fault};

    ghost from_gives = { λ _ stop. stop ≡ Fault NoMemory };

    fn from(_e: AllocError) -> Stop {
        Stop::Fault(AwsChunkedBodyError::NoMemory)
    }
}

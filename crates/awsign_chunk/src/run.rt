//! A run of `awsign chunk`, behind its words: what is to be written.
ghost use Rattle.std.specs.Prelude.{◌≡◌, ◌≤◌, IsErrOf, map, string_bytes};
ghost use Rattle.smithy_core.specs.Given.{Gives};
ghost use Rattle.smithy_core.specs.Outside.{CountsFault};
ghost use Rattle.env_config.specs.Loading.{Loaded, StopsAtFile};
ghost use Rattle.env_config.specs.Source.{file_of};
ghost use Rattle.awsign_run.specs.Chosen.{asked_profile};
ghost use Rattle.awsign_run.specs.Run.{TakesAskedMoment, asked_moment, asked_places};
ghost use Rattle.awsign_run.specs.declared.status.Status.TheVariants.{DataFault};
ghost use Rattle.awsign_words.specs.Words.{sign_wanted};
ghost use Rattle.awsign_chunk.specs.ChunkRun.{HoldsData, MakesSentBy, MakesUpload, sent_signer};
ghost use Rattle.awsign_chunk.specs.Sent.{MakesSentFor};
ghost use Rattle.awsign_chunk.specs.declared.status.ChunkStatus.TheVariants.{Ended};

use crate::sent::{ChunkedUpload, upload_for};
use crate::status::ChunkStatus;
use awsign_run::{Status, load_source, moment_asked, moment_of, signer_for, url_host};
use awsign_words::Asked;
use env_config::Source;
use smithy_core::{ByteSource, Clock, Disk, Env, Moment, read_all};
use std::alloc::Global;

/// The most bytes of data that are held.
const MOST_DATA: usize = 4_294_967_295;

/// All data of a source that doesn't tell its length, which has to be announced.
///
/// # Errors
///
/// [`ChunkStatus::DataTooLong`] where there are over 4,294,967,295 bytes, and that the data couldn't be read, or that memory ran out.
pub fn held_data<S: ByteSource>(alloc: Global, content: &mut S) -> Result<Vec<u8>, ChunkStatus>
    ensures holds { HoldsData (S.left content.old) result }
    ensures failed { CountsFault (IsErrOf result (Ended DataFault)) (S.faults content.old) (S.faults content.new) }
{
    Ok(read_all(alloc, content, MOST_DATA)?)
}

/// The upload of so many bytes of data that words ask for, at the moment that an option names, or one of the clock.
///
/// The first test that fails ends the run, in this order: a profile file that an option names, the lines of profile files, the key, the
/// region, the service, the trailers, the announcement, and then those of [`sign`](sigv4::sign).
pub fn make_upload<D: Disk, C: Clock>(
    alloc: Global,
    asked: &Asked<'_>,
    env: &Env,
    length: u64,
    disk: &mut D,
    clock: &mut C,
) -> Result<ChunkedUpload, ChunkStatus>
    // What is to be written is the signed request that announces the body, and the body behind it; or why there is none.
    ensures headline { MakesUpload (TakesAskedMoment (λ taken. Gives C.Clock clock.old taken clock.new) (asked_moment asked.now.options)) env.now
        (Loaded D.answers D.faults (D.files disk.old) env.now (asked_places asked.now.options) disk.old disk.new)
        (StopsAtFile D.answers D.faults (D.files disk.old) env.now (asked_places asked.now.options) disk.old disk.new)
        (sign_wanted asked.now) length result }

    // No file changed, and no count fell.
    ensures outside { (D.files disk.new ≡ D.files disk.old) × (D.faults disk.old ≤ D.faults disk.new) }
{
    match load_source(alloc, env, disk, &asked.options) {
        Ok(source) => upload_by_files(alloc, asked, env, &source, length, clock),
        Err(fault) => Err(ChunkStatus::Ended(Status::from(fault))),
    }
}

// The upload with the texts of profile files.
fn upload_by_files<C: Clock>(
    alloc: Global,
    asked: &Asked<'_>,
    env: &Env,
    source: &Source,
    length: u64,
    clock: &mut C,
) -> Result<ChunkedUpload, ChunkStatus>
    requires { string_bytes source.now.profile ≡ asked_profile asked.now.options env.now }
    ensures { MakesSentBy (TakesAskedMoment (λ taken. Gives C.Clock clock.old taken clock.new) (asked_moment asked.now.options)) env.now
        (sign_wanted asked.now) (map file_of source.now.files.items) length result }
{
    let at = moment_of(moment_asked(&asked.options), clock);
    upload_at(alloc, asked, env, source, length, at)
}

// The upload at a moment.
fn upload_at(
    alloc: Global,
    asked: &Asked<'_>,
    env: &Env,
    source: &Source,
    length: u64,
    at: Moment,
) -> Result<ChunkedUpload, ChunkStatus>
    requires { string_bytes source.now.profile ≡ asked_profile asked.now.options env.now }
    ensures { MakesSentFor (sign_wanted asked.now) length (sent_signer (sign_wanted asked.now) env.now (map file_of source.now.files.items)) at result }
{
    let host = url_host(asked.url);
    match signer_for(alloc, &asked.options, host, env, source) {
        Ok(signer) => upload_for(alloc, asked, signer, length, at),
        Err(fault) => Err(ChunkStatus::from(fault)),
    }
}

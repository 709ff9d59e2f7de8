//! The frames of a stream as bytes.
use signed_stream::run;
use smithy_core::{CalmDisk, CalmSink, CalmSource, Env, FixedClock, Mem, Moment};
use std::alloc::Global;

const WORDS: [&str; 6] = [
    "stream",
    "--name",
    "transcribe",
    "--at",
    "1440938160",
    "--raw",
];

/// What `stream --raw` writes for a job, at the moment of the example.
pub fn raw_stream(alloc: Global, job: Vec<u8>) -> Mem<Vec<u8>> {
    let mut words = Vec::new(alloc);
    for word in WORDS {
        words.push(String::from_str(alloc, word)?)?;
    }
    let mut out = CalmSink::new(alloc);
    let _ = run(
        alloc,
        words.as_slice(),
        &Env::new(alloc),
        &mut CalmSource::new(job),
        &mut CalmDisk::new(Vec::new(alloc)),
        &mut FixedClock::new(Moment::new(0, 0)),
        &mut out,
        &mut CalmSink::new(alloc),
    );
    Vec::from_slice(alloc, out.held())
}

//! A service that takes signed uploads.
use anyhow::bail;
use chunk_watch::{ChunkFault, ChunkLimits, ChunkWatch};
use request_door::{Admitted, DoorFault, DoorPayload, KeyList, Keys, Limits, admit};
use sigv4::SigningSettings;
use smithy_core::{HttpRequest, Moment};
use std::alloc::Global;

/// What the service answers.
#[derive(Drop)]
pub enum Answer {
    /// So many bytes are stored.
    Stored(usize),
    /// The request isn't let in, or a chunk has another signature: the HTTP status, and the name that Amazon S3 has for the error.
    Refused(u16, &'static str),
}

/// Takes an upload. Of a body in signed chunks no byte is taken before the signature of its chunk was computed again.
pub fn upload(
    alloc: Global,
    request: &HttpRequest,
    keys: &KeyList,
    now: Moment,
) -> anyhow::Result<Answer> {
    let settings = SigningSettings::for_s3(alloc)?;
    let (body, limits) = (request.body.as_slice(), Limits::new());
    match admit(
        alloc,
        request,
        body,
        &settings,
        "us-east-1",
        "s3",
        keys,
        now,
        &limits,
    ) {
        Ok(admitted) => store(alloc, &admitted, body, keys),
        Err(fault) => refuse(fault),
    }
}

fn refuse(fault: DoorFault) -> anyhow::Result<Answer> {
    if fault == DoorFault::NoMemory {
        bail!("out of memory");
    }
    let error = fault.code();
    Ok(Answer::Refused(error.status, error.name))
}

fn store(
    alloc: Global,
    admitted: &Admitted,
    body: &[u8],
    keys: &KeyList,
) -> anyhow::Result<Answer> {
    if admitted.payload != DoorPayload::SignedChunks {
        return Ok(Answer::Stored(body.len()));
    }
    let Some(secret) = keys.secret(alloc, admitted.key_id.as_str())? else {
        bail!("a key that is gone");
    };
    match data_of(alloc, admitted, secret.as_str(), body) {
        Ok(data) => Ok(Answer::Stored(data.len())),
        Err(ChunkFault::NoMemory) => bail!("out of memory"),
        Err(_) => Ok(Answer::Refused(403, "SignatureDoesNotMatch")),
    }
}

// The data of signed chunks, which come in pieces and go on from the request's signature.
fn data_of(
    alloc: Global,
    admitted: &Admitted,
    secret: &str,
    body: &[u8],
) -> Result<Vec<u8>, ChunkFault> {
    let (seed, limits) = (admitted.signature.as_str(), ChunkLimits::new());
    let mut watch = ChunkWatch::new(alloc, seed, secret, "us-east-1", "s3", admitted.at, limits)?;
    let mut data = Vec::new(alloc);
    for piece in body.chunks(1_400) {
        watch.feed(piece, &mut data)?;
    }
    watch.finish()?;
    Ok(data)
}

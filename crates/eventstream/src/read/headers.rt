ghost use Rattle.std.specs.Prelude.{◌-◌, ◌≤◌, ◌<◌, length, OnOk};
ghost use Rattle.eventstream.specs.Read.{header_within, headers_of, GivesFront, GivesHeaders};

use crate::error::{Error, ErrorKind};
use crate::read::header::take_header;
use bytes::Bytes;
use smithy_core::Header;
use std::alloc::Global;

/// The headers of a block of so many bytes, at the front of all bytes that are there, which only headers share.
#[tactic(auto, unfolding(crate::specs::Read::headers_within))]
pub fn read_block(alloc: Global, len: usize, bytes: &Bytes) -> Result<Vec<Header>, Error>
    ensures { GivesHeaders (headers_of len bytes.now) result }
{
    if len == 0 {
        return Ok(Vec::new(alloc));
    }
    read_headers(alloc, len, bytes.clone()?)
}

// The same, of bytes of its own.
#[tactic(auto, using(crate::proofs::HeadersLemmas::goes_on, crate::proofs::HeadersLemmas::is_done))]
fn read_headers(alloc: Global, len: usize, mut rest: Bytes) -> Result<Vec<Header>, Error>
    ensures { GivesHeaders (headers_of len rest) result }
{
    let mut headers = Vec::new(alloc);
    let mut left = len;
    while left > 0 {
        let before = rest.len();
        headers.push(take_header_within(left, &mut rest)?)?;
        left -= before - rest.len();
    }
    Ok(headers)
}

// Takes a header of a block that has so many bytes left.
#[tactic(auto, unfolding(crate::specs::Read::header_within))]
fn take_header_within(left: usize, rest: &mut Bytes) -> Result<Header, Error>
    ensures header { GivesFront (header_within left) rest.old rest.new result }
    ensures shorter { OnOk result (length rest.new < length rest.old) }
    ensures within { OnOk result (length rest.old - length rest.new ≤ left) }
{
    let before = rest.len();
    let header = take_header(rest)?;
    if before - rest.len() > left {
        return Err(Error::from(ErrorKind::InvalidHeaderValue));
    }
    Ok(header)
}

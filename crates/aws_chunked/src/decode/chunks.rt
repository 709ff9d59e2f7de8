ghost use Rattle.std.specs.Prelude.{◌≡◌};
ghost use Rattle.aws_chunked.specs.Rests.{ReadsChunks, ReadsData, ReadsHeadEnd, most_after};

use crate::decode::expecting::{begins_with, expect};
use crate::decode::fault::PartFault;
use crate::decode::length::read_length;
use crate::decode::signature::read_signature;
use crate::text::CRLF;
use std::alloc::Global;

// The greatest size of a chunk, in bytes.
const MOST_SIZE: usize = 4_294_967_295;

// What the chunks that were read say.
#[derive(Drop)]
pub(crate) struct Chunks {
    pub(crate) is_signed: bool,
    pub(crate) body: Vec<u8>,
    pub(crate) signatures: Vec<String>,
}

// Reads the chunks up to the empty one, and its line: what they say, and what stands behind it. Whether the text is signed shows behind
// the first length.
pub(crate) fn read_chunks(alloc: Global, bytes: &[u8]) -> Result<(Chunks, &[u8]), PartFault>
    ensures { ReadsChunks bytes.now result }
{
    let (size, rest) = read_length(bytes, MOST_SIZE)?;
    let mut chunks = Chunks {
        is_signed: begins_with(rest, b';'),
        body: Vec::new(alloc),
        signatures: Vec::new(alloc),
    };
    let mut rest = read_head_end(alloc, rest, &mut chunks)?;
    let mut length = size;
    while length > 0 {
        let behind = read_data(rest, length, &mut chunks.body)?;
        let (next, behind) = read_length(behind, most_after(size, length))?;
        rest = read_head_end(alloc, behind, &mut chunks)?;
        length = next;
    }
    Ok((chunks, rest))
}

// The greatest length behind a chunk: none but the empty chunk stands behind one that is smaller than the others.
fn most_after(size: usize, length: usize) -> usize
    ensures { result ≡ most_after size length }
{
    if length < size { 0 } else { size }
}

// Reads what stands behind a length: a signature, where the text is signed, and the end of the line.
fn read_head_end<'a>(
    alloc: Global,
    bytes: &'a [u8],
    chunks: &mut Chunks,
) -> Result<&'a [u8], PartFault>
    ensures { ReadsHeadEnd bytes.now chunks.old chunks.new result }
{
    if !chunks.is_signed {
        return expect(bytes, CRLF);
    }
    let rest = expect(bytes, b";chunk-signature=")?;
    let (signature, rest) = read_signature(alloc, rest)?;
    chunks.signatures.push(signature)?;
    expect(rest, CRLF)
}

// Reads data of this length and the end of its line: what stands behind it.
fn read_data<'a>(bytes: &'a [u8], length: usize, body: &mut Vec<u8>) -> Result<&'a [u8], PartFault>
    ensures { ReadsData length bytes.now body.old.items body.new.items result }
{
    if bytes.len() < length {
        return Err(PartFault::Bad { left: 0 });
    }
    let (data, rest) = bytes.split_at(length);
    body.extend_from_slice(data)?;
    expect(rest, CRLF)
}

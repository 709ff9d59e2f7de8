ghost use Rattle.std.specs.Prelude.{◌≡◌, IfOk};

use bytes::{Bytes, BytesMut};
use smithy_core::{Mem, StrBytes};
use std::alloc::Global;

// How many bytes a shared block has, and how many a piece of it has at most.
const BLOCK_LEN: usize = 16_384;

const MOST_SHARED: usize = 1_024;

/// Makes texts and bytes that share blocks of memory where they are short: a block for each takes far more than a short one.
#[derive(Drop)]
pub struct BytesPool {
    block: BytesMut,
}

impl BytesPool {
    /// A pool without a block.
    pub fn new(alloc: Global) -> BytesPool {
        BytesPool {
            block: BytesMut::new(alloc),
        }
    }

    /// The bytes, in a shared block where they are few.
    pub fn pooled(&mut self, bytes: Bytes) -> Mem<Bytes>
        ensures { IfOk result (λ pooled. pooled ≡ bytes) }
    {
        if bytes.len() > MOST_SHARED {
            return Ok(bytes);
        }
        self.copied(bytes.as_slice())
    }

    /// A copy of the text, in a shared block where it is short.
    #[tactic(auto, using(smithy_core::proofs::TextLemmas::is_text))]
    pub fn text(&mut self, text: &str) -> Mem<StrBytes>
        ensures { IfOk result (λ copy. copy ≡ text.now) }
    {
        if text.len() > MOST_SHARED {
            return StrBytes::copy_from_str(*self.block.allocator(), text);
        }
        match StrBytes::try_from_bytes(self.copied(text.as_bytes())?) {
            Ok(copy) => Ok(copy),
            Err(_) => unreachable!(),
        }
    }

    // A copy of the bytes in the shared block, or in a new one where that has no room.
    fn copied(&mut self, bytes: &[u8]) -> Mem<Bytes>
        ensures { IfOk result (λ copy. copy ≡ bytes.now) }
    {
        self.block.truncate(0);
        if self.block.capacity() < bytes.len() {
            self.block = BytesMut::with_capacity(*self.block.allocator(), BLOCK_LEN)?;
        }
        self.block.extend_from_slice(bytes)?;
        self.block.freeze_to(bytes.len())
    }
}

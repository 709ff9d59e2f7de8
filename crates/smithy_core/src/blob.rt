ghost use Rattle.std.specs.Prelude.{◌≡◌, IfOk};

use crate::memory::Mem;
use bytes::Bytes;
use std::fmt;
use std::marker::Model;

/// Binary data. [`Debug`](std::fmt::Debug) prints how many bytes there are, and none of them, since they may hold a secret
/// (the SDK's type prints them).
///
/// Contracts see it as its bytes.
#[derive(Drop)]
pub struct Blob {
    bytes: Bytes,
}

impl Model for Blob {
    ghost use Rattle.std.specs.Prelude.{ℕ, List};

    ghost Value = { List ℕ };

    ghost view = { λ blob. blob.bytes };
}

impl Blob {
    /// The data of these bytes.
    pub fn new(bytes: Bytes) -> Blob
        ensures { result ≡ bytes }
    {
        Blob { bytes }
    }

    /// Its bytes.
    pub fn as_ref(&self) -> &[u8]
        ensures { result.now ≡ self.now }
    {
        self.bytes.as_slice()
    }

    /// Another handle of the same data.
    pub fn try_clone(&self) -> Mem<Blob>
        ensures { IfOk result (λ copy. copy ≡ self.now) }
    {
        Ok(Blob {
            bytes: self.bytes.clone()?,
        })
    }
}

impl fmt::Debug for Blob {
    ghost use Rattle.std.specs.Prelude.{Some, codes, length};
    ghost use Rattle.smithy_core.specs.Blob.{byte_count};

    ghost debug_output = { λ blob. Some (byte_count (codes "Blob") (length blob)) };

    fn fmt<W: fmt::Write>(&self, f: &mut fmt::Formatter<W>) -> fmt::Result {
        let count = self.bytes.len();
        write!(f, "Blob({count} bytes)")
    }
}

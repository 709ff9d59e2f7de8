ghost use Rattle.std.specs.Prelude.{◌≡◌, IfOk};
ghost use Rattle.eventstream.specs.Decode.{IsReadPrelude};
ghost use Rattle.eventstream.specs.Read.{AreFit, read_prelude};

use crate::error::ErrorKind;
use crate::read::{Lengths, read_prelude};
use seg_buf::PRELUDE;

/// A prelude that was taken of a stream. Its lengths were read then, and are at hand when the rest of its frame comes.
#[derive(Clone, Copy, Debug)]
pub(crate) struct KeptPrelude {
    /// Its bytes.
    pub(crate) bytes: [u8; PRELUDE],
    /// The lengths in it, and none if it is a fault.
    pub(crate) lengths: Option<Lengths>,
}

impl KeptPrelude {
    /// The lengths in it.
    ///
    /// # Errors
    ///
    /// Those of [`read_prelude`].
    pub(crate) fn lengths(&self) -> Result<Lengths, ErrorKind>
        requires { IsReadPrelude self.now }
        ensures lengths { result ≡ read_prelude self.now.bytes }
        ensures fit { IfOk result AreFit }
    {
        match self.lengths {
            Some(lengths) => Ok(lengths),
            None => read_prelude(&self.bytes),
        }
    }
}

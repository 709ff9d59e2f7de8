ghost use Rattle.std.specs.Prelude.{◌≡◌, Ok};
ghost use Rattle.firuvaik_c.specs.Answers.{Lends, LendsMade, LendsSigned};

use crate::fault::Fault;

/// How a call went.
#[repr(C)]
#[derive(Clone, Copy, Debug, PartialEq, Eq)]
pub struct Answer {
    /// 0 where all was written, 1 where more room is wanted, and else why nothing was.
    pub status: u32,
    /// The place of the header or the line at fault, counted from 1, or else 0.
    pub place: usize,
    /// How many bytes were written, or are wanted.
    pub length: usize,
}

/// What a signing makes: a text, and the signature.
#[derive(Drop)]
pub struct Made {
    /// The text.
    pub text: Vec<u8>,
    /// The signature, in lower-case hexadecimal.
    pub signature: [u8; 64],
}

/// Writes a text to the front of the room, where it fits.
pub(crate) fn lend(text: &[u8], out: &mut [u8]) -> Answer
    ensures { Lends (Ok text.now) out.old out.new result }
{
    let length = text.len();
    if length > out.len() {
        return Answer {
            status: 1,
            place: 0,
            length,
        };
    }
    out[..length].copy_from_slice(text);
    Answer {
        status: 0,
        place: 0,
        length,
    }
}

/// The answer to a fault, after which nothing is written.
pub(crate) fn refuse(fault: Fault) -> Answer
    ensures { result ≡ record { status = fault.status; place = fault.place; length = 0 } }
{
    Answer {
        status: fault.status,
        place: fault.place,
        length: 0,
    }
}

/// Writes what was made, where it fits.
pub(crate) fn lend_made(made: Result<Vec<u8>, Fault>, out: &mut [u8]) -> Answer
    ensures { LendsMade made out.old out.new result }
{
    match made {
        Ok(made) => lend(made.as_slice(), out),
        Err(fault) => refuse(fault),
    }
}

/// Writes what was made, the signature too, where the text fits.
pub(crate) fn lend_signed(
    made: Result<Made, Fault>,
    signature: &mut [u8; 64],
    out: &mut [u8],
) -> Answer
    ensures { LendsSigned made signature.old signature.new out.old out.new result }
{
    match made {
        Ok(made) => {
            let answer = lend(made.text.as_slice(), out);
            if answer.status == 0 {
                *signature = made.signature;
            }
            answer
        }
        Err(fault) => refuse(fault),
    }
}

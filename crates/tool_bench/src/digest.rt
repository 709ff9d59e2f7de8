use std::fmt;

/// A number that depends on all answers and their order, so that no work may be left out.
#[derive(Clone, Copy, Debug, PartialEq, Eq)]
pub struct Digest(u64);

impl Digest {
    /// The digest of no answers.
    pub fn new() -> Digest {
        Digest(0)
    }

    /// The digest of one answer more.
    pub fn with(self, answer: &[u8]) -> Digest {
        let number = answer.iter().fold(
            self.0,
            |number, byte| number.wrapping_mul(31).wrapping_add(u64::from(*byte)),
        );
        Digest(number)
    }
}

impl fmt::Display for Digest {
    fn fmt<W: fmt::Write>(&self, f: &mut fmt::Formatter<W>) -> fmt::Result {
        write!(f, "{:016x}", self.0)
    }
}

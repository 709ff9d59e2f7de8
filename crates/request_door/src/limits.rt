ghost use Rattle.std.specs.Prelude.{◌≡◌};

/// What a service's door lets through at most.
#[derive(Clone, Copy, Debug, PartialEq, Eq)]
pub struct Limits {
    /// By how many seconds the date of a signature in headers may differ from the service's own, in either direction.
    pub skew: u32,
    /// For how many seconds a presigned target may be good.
    pub expiry: u64,
    /// How many headers may be signed.
    pub names: usize,
}

impl Limits {
    /// The limits of AWS: a skew of 15 minutes, and an expiry of 7 days. For names it has none; here they are 100.
    pub fn new() -> Limits
        ensures { result ≡ record { skew = 900; expiry = 604800; names = 100 } }
    {
        Limits {
            skew: 900,
            expiry: 604_800,
            names: 100,
        }
    }
}

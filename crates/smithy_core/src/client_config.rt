ghost use Rattle.std.specs.Prelude.{◌≡◌};

/// How often an operation is tried.
#[derive(Clone, Copy, Debug, PartialEq, Eq)]
pub struct RetryConfig {
    /// The most attempts, the first one included.
    pub max_attempts: u32,
}

impl RetryConfig {
    /// The standard: three attempts.
    pub fn standard() -> RetryConfig
        ensures { result ≡ record { max_attempts = 3 } }
    {
        RetryConfig { max_attempts: 3 }
    }
}

/// How long an operation may take.
#[derive(Clone, Copy, Debug, PartialEq, Eq)]
pub struct TimeoutConfig {
    /// The most seconds from the request to the first byte of its answer, where there is a limit.
    pub read_timeout: Option<u64>,
}

//! The commands of the tool.
ghost use Rattle.std.specs.Prelude.{◌≡◌};
ghost use Rattle.awsign_words.specs.Words.{is_chunk, is_presign, is_request, prints, signs_request};

/// A command of the tool.
#[derive(Clone, Copy, Debug, PartialEq, Eq)]
pub enum Command {
    /// To print a signed request.
    Sign,
    /// To print a presigned URL.
    Presign,
    /// To say who signed a request.
    Verify,
    /// To say which settings are used, and where each came from.
    Settings,
    /// To print a signed request, and to write its body in chunks.
    Chunk,
}

impl Command {
    /// Whether it prints a signed request, and does no more.
    pub fn prints(self) -> bool
        ensures { result ≡ prints self }
    {
        match self {
            Command::Sign | Command::Presign => true,
            Command::Verify | Command::Settings | Command::Chunk => false,
        }
    }

    /// Whether it prints a presigned URL.
    pub fn is_presign(self) -> bool
        ensures { result ≡ is_presign self }
    {
        match self {
            Command::Presign => true,
            Command::Sign | Command::Verify | Command::Settings | Command::Chunk => false,
        }
    }

    /// Whether it writes a body in chunks.
    pub fn is_chunk(self) -> bool
        ensures { result ≡ is_chunk self }
    {
        match self {
            Command::Chunk => true,
            Command::Sign | Command::Presign | Command::Verify | Command::Settings => false,
        }
    }

    /// Whether it prints a signed request, whatever else it writes.
    pub fn signs_request(self) -> bool
        ensures { result ≡ signs_request self }
    {
        self.prints() || self.is_chunk()
    }

    /// Whether it is about a request, and not about settings alone.
    pub fn is_request(self) -> bool
        ensures { result ≡ is_request self }
    {
        match self {
            Command::Settings => false,
            Command::Sign | Command::Presign | Command::Verify | Command::Chunk => true,
        }
    }
}

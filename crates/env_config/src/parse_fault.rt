ghost use Rattle.std.specs.Prelude.{◌≡◌, IfOk};
ghost use Rattle.env_config.specs.ParseFault.{IsSameParseFault, faulty_line_of};

use smithy_core::Mem;
use std::alloc::AllocError;
use std::fmt;

/// A line outside the grammar of profile files.
#[derive(Debug, PartialEq, Eq, Drop)]
pub struct EnvConfigParseError {
    /// The path of the file, empty where it has none.
    pub path: String,
    /// The number of the line, counted from 1.
    pub line_number: usize,
    /// What is wrong with it.
    pub message: String,
}

impl EnvConfigParseError {
    /// An equal error.
    pub fn try_clone(&self) -> Mem<EnvConfigParseError>
        ensures { IfOk result (λ copy. faulty_line_of copy ≡ faulty_line_of self.now) }
    {
        Ok(EnvConfigParseError {
            path: self.path.clone()?,
            line_number: self.line_number,
            message: self.message.clone()?,
        })
    }
}

impl fmt::Display for EnvConfigParseError {
    ghost use Rattle.std.specs.Prelude.{Some};
    ghost use Rattle.env_config.specs.ParseFault.{parse_error_text};

    ghost output = { λ error. Some (parse_error_text error) };

    fn fmt<W: fmt::Write>(&self, f: &mut fmt::Formatter<W>) -> fmt::Result {
        let path = self.path.as_str();
        let line_number = self.line_number;
        let message = self.message.as_str();
        write!(
            f,
            "error parsing {path} on line {line_number}:\n  {message}"
        )
    }
}

impl std::error::Error for EnvConfigParseError {}

/// Why texts give no sections.
#[derive(Debug, Drop)]
pub enum ParseFault {
    /// The first faulty line of the first faulty file.
    Parse(EnvConfigParseError),
    /// Memory ran out.
    NoMemory,
}

impl ParseFault {
    /// An equal fault.
    pub fn try_clone(&self) -> Mem<ParseFault>
        ensures { IfOk result (IsSameParseFault self.now) }
    {
        match self {
            ParseFault::Parse(error) => Ok(ParseFault::Parse(error.try_clone()?)),
            ParseFault::NoMemory => Ok(ParseFault::NoMemory),
        }
    }
}

impl fmt::Display for ParseFault {
    ghost use Rattle.std.specs.Prelude.{Some};
    ghost use Rattle.env_config.specs.ParseFault.{parse_fault_text};

    ghost output = { λ fault. Some (parse_fault_text fault) };

    fn fmt<W: fmt::Write>(&self, f: &mut fmt::Formatter<W>) -> fmt::Result {
        match self {
            ParseFault::Parse(error) => error.fmt(f),
            ParseFault::NoMemory => f.write_str("no memory"),
        }
    }
}

impl std::error::Error for ParseFault {}

impl From<AllocError> for ParseFault {
    ghost use Rattle.std.specs.Prelude.{◌≡◌};
    ghost use Rattle.env_config.specs.declared.parse_fault.ParseFault.TheVariants.{NoMemory};

    ghost from_gives = { λ _ fault. fault ≡ NoMemory };

    fn from(_e: AllocError) -> ParseFault {
        ParseFault::NoMemory
    }
}

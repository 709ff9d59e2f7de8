ghost use Rattle.std.specs.Prelude.{◌≡◌};
ghost use Rattle.env_config.specs.Fault.{flaw_message, numbered};

use std::alloc::AllocError;

/// What is wrong with a line that is outside the grammar.
#[derive(Clone, Copy, Debug, PartialEq, Eq)]
pub enum LineFlaw {
    /// A section line has no closing bracket at its end.
    NoBracket,
    /// A property stands before the first section.
    NoSection,
    /// A continuation stands before the first property of its section.
    NoProperty,
    /// A property has no `=`.
    NoEquals,
    /// Nothing stands before the first `=` of a property.
    NoName,
    /// A line below an empty value has no `=`.
    NoSubEquals,
    /// Nothing stands before the first `=` of a line below an empty value.
    NoSubName,
}

impl LineFlaw {
    /// The message.
    pub fn message(self) -> &'static str
        ensures { result.now ≡ flaw_message self }
    {
        match self {
            LineFlaw::NoBracket => "Profile definition must end with ']'",
            LineFlaw::NoSection => "Expected a profile definition",
            LineFlaw::NoProperty => "Expected a property definition, found continuation",
            LineFlaw::NoEquals => "Expected an '=' sign defining a property",
            LineFlaw::NoName => "Property did not have a name",
            LineFlaw::NoSubEquals => "Expected an '=' sign defining a sub-property",
            LineFlaw::NoSubName => "Sub-property did not have a name",
        }
    }
}

/// Why a line isn't taken.
#[derive(Clone, Copy, Debug, PartialEq, Eq)]
pub enum GrammarFault {
    /// The line is outside the grammar.
    Bad(LineFlaw),
    NoMemory,
}

impl GrammarFault {
    /// The fault of the line with this number.
    pub fn at(self, number: usize) -> RawFault
        ensures { result ≡ numbered number self }
    {
        match self {
            GrammarFault::Bad(flaw) => RawFault::Line(number, flaw),
            GrammarFault::NoMemory => RawFault::NoMemory,
        }
    }
}

impl From<AllocError> for GrammarFault {
    ghost use Rattle.std.specs.Prelude.{◌≡◌};
    ghost use Rattle.env_config.specs.declared.fault.GrammarFault.TheVariants.{NoMemory};

    ghost from_gives = { λ _ fault. fault ≡ NoMemory };

    fn from(_e: AllocError) -> GrammarFault {
        GrammarFault::NoMemory
    }
}

/// Why a text has no sections.
#[derive(Clone, Copy, Debug, PartialEq, Eq)]
pub enum RawFault {
    /// The first line outside the grammar, counted from 1, and what is wrong with it.
    Line(usize, LineFlaw),
    NoMemory,
}

impl From<AllocError> for RawFault {
    ghost use Rattle.std.specs.Prelude.{◌≡◌};
    ghost use Rattle.env_config.specs.declared.fault.RawFault.TheVariants.{NoMemory};

    ghost from_gives = { λ _ fault. fault ≡ NoMemory };

    fn from(_e: AllocError) -> RawFault {
        RawFault::NoMemory
    }
}

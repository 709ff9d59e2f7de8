ghost use Rattle.env_config.specs.LastProperty.{MakesLast, TakesStep, TestsSubProperty, last_of};
ghost use Rattle.env_config.specs.Line.{property_of};
ghost use Rattle.env_config.specs.Raw.{begun_property, continued};

use crate::fault::{GrammarFault, LineFlaw};
use crate::line::{PropertyFault, cut_property, trim};
use std::alloc::Global;

/// The property that was begun last, which later lines may go on with.
#[derive(Drop)]
pub struct LastProperty {
    pub key: String,
    pub value: String,
    is_parent: bool,
}

impl LastProperty {
    /// The property that the line begins.
    ///
    /// # Errors
    ///
    /// [`GrammarFault::Bad`] where the line is no property.
    pub fn read(alloc: Global, line: &str) -> Result<LastProperty, GrammarFault>
        ensures { MakesLast (begun_property (property_of line.now)) result }
    {
        match cut_property(line) {
            Ok((key, value)) => Ok(LastProperty {
                key: key.to_ascii_lowercase(alloc)?,
                value: String::from_str(alloc, value)?,
                is_parent: value.is_empty(),
            }),
            Err(PropertyFault::NoEquals) => Err(GrammarFault::Bad(LineFlaw::NoEquals)),
            Err(PropertyFault::NoName) => Err(GrammarFault::Bad(LineFlaw::NoName)),
        }
    }

    /// The value goes on with the line.
    ///
    /// # Errors
    ///
    /// [`GrammarFault::Bad`] where the line stands below an empty value and is no property.
    #[tactic(auto, unfolding(crate::specs::Raw::continued))]
    pub fn go_on(&mut self, line: &str) -> Result<(), GrammarFault>
        ensures { TakesStep (continued (last_of self.old) line.now) (last_of self.new) result }
    {
        if self.is_parent {
            test_sub_property(line)?;
        }
        self.value.push_str("\n")?;
        self.value.push_str(trim(line))?;
        Ok(())
    }
}

// Whether the line could stand below an empty value.
fn test_sub_property(line: &str) -> Result<(), GrammarFault>
    ensures { TestsSubProperty (property_of line.now) result }
{
    match cut_property(line) {
        Ok(_) => Ok(()),
        Err(PropertyFault::NoEquals) => Err(GrammarFault::Bad(LineFlaw::NoSubEquals)),
        Err(PropertyFault::NoName) => Err(GrammarFault::Bad(LineFlaw::NoSubName)),
    }
}

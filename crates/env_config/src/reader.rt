ghost use Rattle.std.specs.Prelude.{◌≡◌, None, List, ℕ, IfOk, OnOk, option_map};
ghost use Rattle.env_config.specs.Kept.{keeps_of};
ghost use Rattle.env_config.specs.LastProperty.{TakesStep, last_of};
ghost use Rattle.env_config.specs.Line.{property_of, section_name};
ghost use Rattle.env_config.specs.Raw.{Keeps, State, begun_property, continued_or, opened, profile_line_step, raw, section_step, within_section};
ghost use Rattle.env_config.specs.Reader.{HandsOn, HasHanded, StandsForLines, ReadsInto, ReadsStep, given_step, with_pending};
ghost use Rattle.env_config.specs.Texts.{Named, nothing_named};

use crate::fault::{GrammarFault, LineFlaw, RawFault};
use crate::kept::Kept;
use crate::last_property::LastProperty;
use crate::line::{cut_line, is_skipped, section_name};
use smithy_core::Mem;
use std::alloc::Global;

/// What takes the sections of a profile text that are kept, and their properties.
///
/// `stands` relates a sink to the profile that it is for, to the section that was opened last and to what all sections hold.
pub trait Sink<'t>: Drop {
    ghost use Rattle.std.specs.Prelude.{List, Option, Some, OnOk, ℕ};
    ghost use Rattle.std.specs.String.{string_bytes};
    ghost use Rattle.env_config.specs.Raw.{properties_of};
    ghost use Rattle.env_config.specs.Texts.{Named, put, put_named};

    ghost stands: { Self → List ℕ → Option (List ℕ) → Named (List (List ℕ × List ℕ)) → Type 0 };

    /// The section with this text between its brackets is opened, or gone on with.
    fn open(&mut self, alloc: Global, name: &'t str) -> Mem<()>
        ensures { (profile : List ℕ) (at : Option (List ℕ)) (sections : Named (List (List ℕ × List ℕ))) → stands self.old profile at sections
            → OnOk result (stands self.new profile (Some name.now) (put_named sections name.now (properties_of sections name.now))) };

    /// The value stands at the key in the section that is open, in place of the one before.
    fn put(&mut self, key: String, value: String) -> Mem<()>
        ensures { (profile name : List ℕ) (sections : Named (List (List ℕ × List ℕ))) → stands self.old profile (Some name) sections
            → OnOk result (stands self.new profile (Some name) (put_named sections name (put (properties_of sections name) (string_bytes key) (string_bytes value)))) };
}

/// StandsForLines a text line by line, and hands what is kept of it on to a sink: a section as it is opened, and a property as it
/// ends, since later lines may go on with its value.
#[derive(Drop)]
pub struct Reader<S> {
    sink: S,
    at: Option<OpenSection>,
}

/// The section that is open, and the property that was begun last in it.
#[derive(Drop)]
struct OpenSection {
    is_kept: bool,
    last: Option<LastProperty>,
}

/// Hands what is kept of the text on to the sink.
///
/// # Errors
///
/// [`RawFault::Line`] with the number of the first line outside the grammar, and the message.
#[tactic(auto, unfolding(crate::specs::Raw::raw))]
pub fn read<'t, S: Sink<'t>>(
    alloc: Global,
    kept: &Kept<'_>,
    text: &'t str,
    sink: S,
) -> Result<S, RawFault>
    ensures { (profile : List ℕ) → S.stands sink profile None nothing_named → ReadsInto (λ s. S.stands s profile) (raw (keeps_of kept.now) text.now) result }
{
    let mut reader = Reader { sink, at: None };
    let mut number = 1;
    let mut rest = text;
    while !rest.is_empty() {
        let (line, others) = cut_line(rest);
        if let Err(fault) = reader.take_line(alloc, kept, line) {
            return Err(fault.at(number));
        }
        rest = others;
        number += 1;
    }
    match reader.into_sink(kept) {
        Ok(sink) => Ok(sink),
        Err(_) => Err(RawFault::NoMemory),
    }
}

impl<'t, S: Sink<'t>> Reader<S> {
    // Takes a line, and hands on the section that it opens and the property that it ends.
    #[tactic(auto, unfolding(crate::specs::Raw::profile_line_step))]
    fn take_line(
        &mut self,
        alloc: Global,
        kept: &Kept<'_>,
        line: &'t str,
    ) -> Result<(), GrammarFault>
        ensures { (profile : List ℕ) (all : State) → StandsForLines (λ s. S.stands s profile) (keeps_of kept.now) all self.old → ReadsStep (λ s. S.stands s profile) (keeps_of kept.now) (profile_line_step (keeps_of kept.now) all line.now) self.new result }
    {
        if is_skipped(line) {
            return Ok(());
        }
        if line.starts_with('[') {
            return self.open_section(alloc, kept, line);
        }
        if line.starts_with(' ') || line.starts_with('\t') {
            return self.continue_property(line);
        }
        self.begin_property(alloc, kept, line)
    }

    // The sink, where the lines are over.
    fn into_sink(mut self, kept: &Kept<'_>) -> Mem<S>
        ensures { (profile : List ℕ) (all : State) → StandsForLines (λ s. S.stands s profile) (keeps_of kept.now) all self → IfOk result (HasHanded (λ s. S.stands s profile) all.sections) }
    {
        self.close(kept)?;
        Ok(self.sink)
    }

    fn open_section(
        &mut self,
        alloc: Global,
        kept: &Kept<'_>,
        line: &'t str,
    ) -> Result<(), GrammarFault>
        ensures { (profile : List ℕ) (all : State) → StandsForLines (λ s. S.stands s profile) (keeps_of kept.now) all self.old → ReadsStep (λ s. S.stands s profile) (keeps_of kept.now) (section_step (keeps_of kept.now) all (section_name line.now)) self.new result }
    {
        match section_name(line) {
            Some(name) => Ok(self.open(alloc, kept, name)?),
            None => Err(GrammarFault::Bad(LineFlaw::NoBracket)),
        }
    }

    // The section is opened, or gone on with.
    fn open(&mut self, alloc: Global, kept: &Kept<'_>, name: &'t str) -> Mem<()>
        ensures { (profile : List ℕ) (all : State) → StandsForLines (λ s. S.stands s profile) (keeps_of kept.now) all self.old → OnOk result (StandsForLines (λ s. S.stands s profile) (keeps_of kept.now) (opened (keeps_of kept.now) all name.now) self.new) }
    {
        self.close(kept)?;
        if !kept.has_section(name) {
            self.at = Some(OpenSection {
                is_kept: false,
                last: None,
            });
            return Ok(());
        }
        self.sink.open(alloc, name)?;
        self.at = Some(OpenSection {
            is_kept: true,
            last: None,
        });
        Ok(())
    }

    // The property that was begun last is over.
    fn close(&mut self, kept: &Kept<'_>) -> Mem<()>
        ensures { (profile : List ℕ) (all : State) → StandsForLines (λ s. S.stands s profile) (keeps_of kept.now) all self.old → OnOk result (HasHanded (λ s. S.stands s profile) all.sections self.new.sink) }
    {
        match self.at.take() {
            Some(at) => self.put_last(kept, at.is_kept, at.last),
            None => Ok(()),
        }
    }

    // Hands on the last property of a section, if it is kept.
    fn put_last(&mut self, kept: &Kept<'_>, is_kept: bool, last: Option<LastProperty>) -> Mem<()>
        ensures { (profile name : List ℕ) (sections : Named (List (List ℕ × List ℕ))) → HandsOn (λ s. S.stands s profile) (keeps_of kept.now) name is_kept sections self.old.sink
            → OnOk result (HandsOn (λ s. S.stands s profile) (keeps_of kept.now) name is_kept (with_pending (keeps_of kept.now) sections name (option_map last_of last)) self.new.sink) }
    {
        let Some(last) = last else {
            return Ok(());
        };
        if is_kept && kept.has_key(last.key.as_str()) {
            self.sink.put(last.key, last.value)?;
        }
        Ok(())
    }

    fn begin_property(
        &mut self,
        alloc: Global,
        kept: &Kept<'_>,
        line: &str,
    ) -> Result<(), GrammarFault>
        ensures { (profile : List ℕ) (all : State) → StandsForLines (λ s. S.stands s profile) (keeps_of kept.now) all self.old → ReadsStep (λ s. S.stands s profile) (keeps_of kept.now) (within_section (keeps_of kept.now) all all.open_section (λ _. begun_property (property_of line.now))) self.new result }
    {
        let Some(at) = self.at.take() else {
            return Err(GrammarFault::Bad(LineFlaw::NoSection));
        };
        let OpenSection { is_kept, last } = at;
        let next = LastProperty::read(alloc, line)?;
        self.put_last(kept, is_kept, last)?;
        self.at = Some(OpenSection {
            is_kept,
            last: Some(next),
        });
        Ok(())
    }

    fn continue_property(&mut self, line: &str) -> Result<(), GrammarFault>
        ensures { (keeps : Keeps) (profile : List ℕ) (all : State) → StandsForLines (λ s. S.stands s profile) keeps all self.old → ReadsStep (λ s. S.stands s profile) keeps (within_section keeps all all.open_section (λ at. continued_or at.last line.now)) self.new result }
    {
        match &mut self.at {
            Some(at) => at.continue_property(line),
            None => Err(GrammarFault::Bad(LineFlaw::NoSection)),
        }
    }
}

impl OpenSection {
    // The property that was begun last goes on with the line.
    fn continue_property(&mut self, line: &str) -> Result<(), GrammarFault>
        ensures last { TakesStep (given_step (continued_or (option_map last_of self.old.last) line.now)) (option_map last_of self.new.last) result }
        ensures kept { self.new.is_kept ≡ self.old.is_kept }
    {
        match &mut self.last {
            Some(last) => last.go_on(line),
            None => Err(GrammarFault::Bad(LineFlaw::NoProperty)),
        }
    }
}

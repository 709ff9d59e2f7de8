//! The words behind `awsign events`.
ghost use Rattle.std.specs.Prelude.{◌≡◌, None, map};
ghost use Rattle.std.specs.String.{string_bytes};
ghost use Rattle.job_text.specs.Words.{TakesWord};
ghost use Rattle.awsign_words.specs.EventWords.{ReadsEventsAsked, action_named, all_event_words, asked_event_form, event_form_named, events_words, given_events, has_stood, is_event_fit, is_event_flag, is_event_spent, lacks_event_option, no_event_words, take_action, take_event_option, take_event_value, takes_event_value};

use crate::sources::is_source_option;
use job_text::{TakeWord, WordsFault, take_words};
use sigv4::parts::is_signature;
use smithy_core::Env;
use std::alloc::Global;

/// What is done with a stream of events.
#[derive(Clone, Copy, Debug, PartialEq, Eq)]
pub enum EventsAction {
    /// To print the events of frames.
    Decode,
    /// To write the frames of events.
    Encode,
    /// To print the events of frames whose signatures recompute.
    Verify,
}

/// A form in which events are printed.
#[derive(Clone, Copy, Debug, PartialEq, Eq)]
pub enum EventForm {
    /// Lines, as a job of `firuvaik stream` has them.
    Lines,
    /// An object on a line.
    JsonLines,
}

/// What the words of `events` ask for.
#[derive(Drop)]
pub struct EventsAsked {
    /// What is done.
    pub action: EventsAction,
    /// The values of the options, by their words.
    pub options: Env,
}

impl EventsAsked {
    /// The form that is asked for, or else lines.
    pub fn form(&self) -> EventForm
        ensures { result ≡ asked_event_form self.now.options }
    {
        match self.options.get("--as") {
            Some(word) => event_form_named(word).unwrap_or(EventForm::Lines),
            None => EventForm::Lines,
        }
    }
}

/// What the words of `events` so far gave: what is done, options, and the one that waits for its value.
#[derive(Drop)]
pub struct GivenEvents<'a> {
    action: Option<EventsAction>,
    options: Env,
    awaited: Option<&'a str>,
}

impl<'a> GivenEvents<'a> {
    /// No words yet.
    pub fn new(alloc: Global) -> Self
        ensures { given_events result ≡ no_event_words }
    {
        GivenEvents {
            action: None,
            options: Env::new(alloc),
            awaited: None,
        }
    }

    // Takes the word at a place that says what is done.
    fn take_action(&mut self, place: usize, word: &str) -> Result<(), WordsFault>
        ensures { TakesWord (take_action (given_events self.old) (action_named word.now)) place (given_events self.new) result }
    {
        let action = action_named(word).ok_or(WordsFault::BadWord(place))?;
        self.action = Some(action);
        Ok(())
    }

    // Takes the value at a place of an option that no longer waits.
    fn take_value(&mut self, option: &str, place: usize, value: &str) -> Result<(), WordsFault>
        requires { self.old.awaited ≡ None }
        ensures { TakesWord (take_event_value (given_events self.old) option.now value.now) place (given_events self.new) result }
    {
        if !is_fit(option, value) {
            return Err(WordsFault::BadWord(place));
        }
        self.options.set(option, value)?;
        Ok(())
    }

    // Takes the option at a place.
    fn take_option(
        &mut self,
        action: EventsAction,
        place: usize,
        word: &'a str,
    ) -> Result<(), WordsFault>
        requires { self.old.awaited ≡ None }
        ensures { TakesWord (take_event_option (given_events self.old) action word.now) place (given_events self.new) result }
    {
        if is_spent(&self.options, word) {
            return Err(WordsFault::BadWord(place));
        }
        if takes_value(action, word) {
            self.awaited = Some(word);
        } else if is_flag(word) {
            self.options.set(word, "")?;
        } else {
            return Err(WordsFault::BadWord(place));
        }
        Ok(())
    }

    /// What is asked, where the place behind the last word is reached.
    pub fn finish(self, place: usize) -> Result<EventsAsked, WordsFault>
        ensures { ReadsEventsAsked (all_event_words place (given_events self.entry)) result }
    {
        let (Some(action), None) = (self.action, self.awaited) else {
            return Err(WordsFault::BadWord(place));
        };
        if lacks_option(action, &self.options) {
            return Err(WordsFault::BadWord(place));
        }
        Ok(EventsAsked {
            action,
            options: self.options,
        })
    }
}

impl<'a> TakeWord<'a> for GivenEvents<'a> {
    ghost use Rattle.awsign_words.specs.EventWords.{EventsGiven, given_events, event_word};

    ghost Given = { EventsGiven };

    ghost given = { given_events };

    ghost step = { event_word };

    fn take_word(&mut self, place: usize, word: &'a str) -> Result<(), WordsFault> {
        match self.action {
            Some(action) => match self.awaited.take() {
                Some(option) => self.take_value(option, place, word),
                None => self.take_option(action, place, word),
            },
            None => self.take_action(place, word),
        }
    }
}

// Whether the option stood.
fn has(options: &Env, word: &str) -> bool
    ensures { result ≡ has_stood options.now word.now }
{
    options.get(word).is_some()
}

// Whether the option can't stand any more.
fn is_spent(options: &Env, word: &str) -> bool
    ensures { result ≡ is_event_spent options.now word.now }
{
    has(options, word) || (is_flag(word) && (has(options, "--raw") || has(options, "--hex")))
}

fn is_flag(word: &str) -> bool
    ensures { result ≡ is_event_flag word.now }
{
    word == "--raw" || word == "--hex"
}

fn takes_value(action: EventsAction, word: &str) -> bool
    ensures { result ≡ takes_event_value action word.now }
{
    match action {
        EventsAction::Decode => word == "--as",
        EventsAction::Encode => false,
        EventsAction::Verify => {
            word == "--as" || word == "--seed" || word == "--service" || is_source_option(word)
        }
    }
}

// Whether an option that is needed didn't stand.
fn lacks_option(action: EventsAction, options: &Env) -> bool
    ensures { result ≡ lacks_event_option action options.now }
{
    match action {
        EventsAction::Decode | EventsAction::Encode => false,
        EventsAction::Verify => !(has(options, "--seed") && has(options, "--service")),
    }
}

// Whether a value fits its option.
fn is_fit(option: &str, value: &str) -> bool
    ensures { result ≡ is_event_fit option.now value.now }
{
    match option {
        "--as" => event_form_named(value).is_some(),
        "--seed" => is_signature(value),
        _ => true,
    }
}

/// The form of events that a word names.
pub fn event_form_named(word: &str) -> Option<EventForm>
    ensures { result ≡ event_form_named word.now }
{
    match word {
        "lines" => Some(EventForm::Lines),
        "json" => Some(EventForm::JsonLines),
        _ => None,
    }
}

fn action_named(word: &str) -> Option<EventsAction>
    ensures { result ≡ action_named word.now }
{
    match word {
        "decode" => Some(EventsAction::Decode),
        "encode" => Some(EventsAction::Encode),
        "verify" => Some(EventsAction::Verify),
        _ => None,
    }
}

/// What the words behind `events` ask for: what is done, and then options in any order.
///
/// # Errors
///
/// The place of the first bad word, or the place behind the last word where one is missing.
#[tactic(auto, unfolding(crate::specs::EventWords::events_words))]
pub fn read_events(alloc: Global, words: &[String]) -> Result<EventsAsked, WordsFault>
    ensures { ReadsEventsAsked (events_words (map string_bytes words.now)) result }
{
    let mut given = GivenEvents::new(alloc);
    let place = take_words(&mut given, 2, words)?;
    given.finish(place)
}

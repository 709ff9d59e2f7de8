//! The words of `chunk`.
ghost use Rattle.std.specs.Prelude.{◌≡◌, None};
ghost use Rattle.sigv4.specs.Refusal.{is_name, is_value};
ghost use Rattle.job_text.specs.ChunkSize.{spelled_size};
ghost use Rattle.job_text.specs.Words.{TakesWord};
ghost use Rattle.signed_stream.specs.Command.{chunk_words};
ghost use Rattle.signed_stream.specs.Options.{ReadsChunk};
ghost use Rattle.signed_stream.specs.ChunkWords.{chunk_given, no_chunk_given, take_chunk_option, take_chunk_size, take_trailer_name, take_trailer_value};

use job_text::{ChunkSize, TakeWord, WordsFault};
use smithy_core::{Headers, is_header_name, is_header_value};
use std::alloc::Global;

/// What `chunk` is asked for.
#[derive(Drop)]
pub struct ChunkWords {
    /// How many bytes a chunk has.
    pub size: ChunkSize,
    /// The trailers in order.
    pub trailers: Headers,
}

/// What the next word is, where it is no option.
#[derive(Clone, Copy)]
pub enum ChunkValue {
    Size,
    TrailerName,
    TrailerValue,
}

/// What the words of `chunk` so far gave, and what the next one is, where it is no option.
#[derive(Drop)]
pub struct GivenChunk<'a> {
    size: Option<ChunkSize>,
    trailers: Headers,
    // The name of the trailer whose value comes next.
    name: &'a str,
    awaited: Option<ChunkValue>,
}

impl<'a> GivenChunk<'a> {
    /// No options.
    pub fn new(alloc: Global) -> Self
        ensures { chunk_given result ≡ no_chunk_given }
    {
        GivenChunk {
            size: None,
            trailers: Headers::new(alloc),
            name: "",
            awaited: None,
        }
    }

    // Takes an option.
    fn take_option(&mut self, place: usize, word: &str) -> Result<(), WordsFault>
        ensures { TakesWord (take_chunk_option (chunk_given self.old) word.now) place (chunk_given self.new) result }
    {
        match word {
            "--size" if self.size.is_none() => self.awaited = Some(ChunkValue::Size),
            "--trailer" => self.awaited = Some(ChunkValue::TrailerName),
            _ => return Err(WordsFault::BadWord(place)),
        }
        Ok(())
    }

    // Takes the value of `--size`.
    fn take_size(&mut self, place: usize, word: &str) -> Result<(), WordsFault>
        requires { self.old.awaited ≡ None }
        ensures { TakesWord (take_chunk_size (chunk_given self.old) (spelled_size word.now)) place (chunk_given self.new) result }
    {
        self.size = Some(ChunkSize::parse(word).ok_or(WordsFault::BadWord(place))?);
        Ok(())
    }

    // Takes the name of a trailer.
    fn take_name(&mut self, place: usize, word: &'a str) -> Result<(), WordsFault>
        ensures { TakesWord (take_trailer_name (chunk_given self.old) word.now) place (chunk_given self.new) result }
    {
        if !is_name(word) {
            return Err(WordsFault::BadWord(place));
        }
        self.name = word;
        self.awaited = Some(ChunkValue::TrailerValue);
        Ok(())
    }

    // Takes the value of a trailer.
    fn take_value(&mut self, place: usize, word: &str) -> Result<(), WordsFault>
        requires { self.old.awaited ≡ None }
        ensures { TakesWord (take_trailer_value (chunk_given self.old) word.now) place (chunk_given self.new) result }
    {
        if !is_value(word) {
            return Err(WordsFault::BadWord(place));
        }
        Ok(self.trailers.append(self.name, word)?)
    }

    /// What is asked, where the place after the last word is reached.
    pub fn finish(self, place: usize) -> Result<ChunkWords, WordsFault>
        ensures { let given = chunk_given self.entry in ReadsChunk (chunk_words place given) result }
    {
        match self.awaited {
            Some(_) => Err(WordsFault::BadWord(place)),
            None => Ok(ChunkWords {
                size: self.size.unwrap_or(ChunkSize::usual()),
                trailers: self.trailers,
            }),
        }
    }
}

impl<'a> TakeWord<'a> for GivenChunk<'a> {
    ghost use Rattle.signed_stream.specs.ChunkWords.{ChunkGiven, chunk_given, chunk_word};

    ghost Given = { ChunkGiven };

    ghost given = { chunk_given };

    ghost step = { chunk_word };

    fn take_word(&mut self, place: usize, word: &'a str) -> Result<(), WordsFault> {
        match self.awaited.take() {
            None => self.take_option(place, word),
            Some(ChunkValue::Size) => self.take_size(place, word),
            Some(ChunkValue::TrailerName) => self.take_name(place, word),
            Some(ChunkValue::TrailerValue) => self.take_value(place, word),
        }
    }
}

// Whether the text may be a header's name.
fn is_name(text: &str) -> bool
    ensures { result ≡ is_name text.now }
{
    is_header_name(text)
}

// Whether the text may be a header's value.
fn is_value(text: &str) -> bool
    ensures { result ≡ is_value text.now }
{
    is_header_value(text)
}

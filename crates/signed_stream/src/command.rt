ghost use Rattle.std.specs.Prelude.{map};
ghost use Rattle.std.specs.String.{string_bytes};
ghost use Rattle.job_text.specs.Pieces.{taken_from};
ghost use Rattle.signed_stream.specs.ChunkWords.{chunk_word, no_chunk_given};
ghost use Rattle.signed_stream.specs.Command.{command, check_rules, check_words, chunk_words, command_from, no_check_given, no_stream_given, settings_words, stream_rules, stream_words};
ghost use Rattle.signed_stream.specs.OptionWords.{options_from};
ghost use Rattle.signed_stream.specs.ProfileOptions.{nothing_wanted, profile_rules};
ghost use Rattle.signed_stream.specs.Options.{ReadsCheck, ReadsChunk, ReadsProfile, ReadsStream, ReadsWords};

mod check;
mod chunk;
mod generator;
mod option_words;
mod profile;
mod request;
mod stream;
mod watch;

pub use crate::command::check::CheckWords;
use crate::command::check::GivenCheck;
pub use crate::command::chunk::ChunkWords;
use crate::command::chunk::GivenChunk;
pub use crate::command::generator::GeneratorWords;
use crate::command::generator::read_generator;
use crate::command::option_words::read_options;
pub use crate::command::profile::{NamedFile, ProfileOption, ProfileOptions};
pub use crate::command::request::{RequestWords, read_request_words};
use crate::command::stream::GivenStream;
pub use crate::command::stream::StreamWords;
pub use crate::command::watch::{WatchWords, read_watch};
use job_text::{WordsFault, take_words};
use std::alloc::Global;

/// A command with its options.
#[derive(Drop)]
pub enum Command<'a> {
    /// Streams a generated job into memory, and checks it.
    Generate(GeneratorWords),
    /// Does what is asked for with the input.
    OfInput(InputCommand<'a>),
}

/// A command that reads the input, with its options.
#[derive(Drop)]
pub enum InputCommand<'a> {
    /// Streams the job that the input spells.
    Stream(StreamWords<'a>),
    /// Shows what the profile gives.
    Settings(ProfileOptions<'a>),
    /// Checks the record that the input spells.
    Check(CheckWords<'a>),
    /// Writes the input in chunks.
    Chunk(ChunkWords),
}

/// The command that the words spell.
///
/// # Errors
///
/// The place of the first bad word.
#[tactic(auto, using(crate::proofs::OptionLemmas::command_empty, crate::proofs::OptionLemmas::command_first), unfolding(crate::specs::Command::command))]
pub fn read_words<'a>(alloc: Global, words: &'a [String]) -> Result<Command<'a>, WordsFault>
    ensures { ReadsWords (command (map string_bytes words.now)) result }
{
    let [first, rest @ ..] = words else {
        return Err(WordsFault::BadWord(1));
    };
    match first.as_str() {
        "stream" => Ok(Command::OfInput(InputCommand::Stream(read_stream(alloc, rest)?))),
        "settings" => Ok(Command::OfInput(InputCommand::Settings(read_profile(alloc, rest)?))),
        "gen" => Ok(Command::Generate(read_generator(rest)?)),
        "check" => Ok(Command::OfInput(InputCommand::Check(read_check(alloc, rest)?))),
        "chunk" => Ok(Command::OfInput(InputCommand::Chunk(read_chunk(alloc, rest)?))),
        _ => Err(WordsFault::BadWord(1)),
    }
}

// What the words after `stream` ask for.
fn read_stream<'a>(alloc: Global, words: &'a [String]) -> Result<StreamWords<'a>, WordsFault>
    ensures { ReadsStream (command_from stream_words (options_from stream_rules 2 no_stream_given (map string_bytes words.now))) result }
{
    let (given, place) = read_options(GivenStream::new(alloc), 2, words)?;
    given.finish(place)
}

// What the words after `settings` ask for.
fn read_profile<'a>(alloc: Global, words: &'a [String]) -> Result<ProfileOptions<'a>, WordsFault>
    ensures { ReadsProfile (command_from settings_words (options_from profile_rules 2 nothing_wanted (map string_bytes words.now))) result }
{
    let (profile, _) = read_options(ProfileOptions::new(alloc), 2, words)?;
    Ok(profile)
}

// What the words after `check` ask for.
fn read_check<'a>(alloc: Global, words: &'a [String]) -> Result<CheckWords<'a>, WordsFault>
    ensures { ReadsCheck (command_from check_words (options_from check_rules 2 no_check_given (map string_bytes words.now))) result }
{
    let (given, place) = read_options(GivenCheck::new(alloc), 2, words)?;
    given.finish(place)
}

// What the words after `chunk` ask for.
fn read_chunk(alloc: Global, words: &[String]) -> Result<ChunkWords, WordsFault>
    ensures { ReadsChunk (command_from chunk_words (taken_from chunk_word 2 no_chunk_given (map string_bytes words.now))) result }
{
    let mut given = GivenChunk::new(alloc);
    let place = take_words(&mut given, 2, words)?;
    given.finish(place)
}

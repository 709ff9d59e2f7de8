//! The words of `gen`.
ghost use Rattle.std.specs.Prelude.{map};
ghost use Rattle.std.specs.String.{string_bytes};
ghost use Rattle.signed_stream.specs.Command.{generator_from, seeded};
ghost use Rattle.signed_stream.specs.Options.{ReadsGenerator};

use job_text::{WordsFault, parse_count, parse_u64};

/// What `gen` is asked for.
#[derive(Clone, Copy, Debug)]
pub struct GeneratorWords {
    /// The seed of the generator.
    pub seed: u64,
    /// How many events it makes.
    pub count: u64,
}

/// The seed and the count.
#[tactic(auto, using(crate::proofs::OptionLemmas::generator_empty, crate::proofs::OptionLemmas::generator_first))]
pub fn read_generator(words: &[String]) -> Result<GeneratorWords, WordsFault>
    ensures { ReadsGenerator (generator_from (map string_bytes words.now)) result }
{
    let [seed, rest @ ..] = words else {
        return Err(WordsFault::BadWord(2));
    };
    match parse_u64(seed.as_str()) {
        Some(seed) => read_count(seed, rest),
        None => Err(WordsFault::BadWord(2)),
    }
}

// The count, after the seed.
#[tactic(auto, using(crate::proofs::OptionLemmas::seeded_empty, crate::proofs::OptionLemmas::seeded_first))]
fn read_count(seed: u64, words: &[String]) -> Result<GeneratorWords, WordsFault>
    ensures { ReadsGenerator (seeded seed (map string_bytes words.now)) result }
{
    let [count, rest @ ..] = words else {
        return Err(WordsFault::BadWord(3));
    };
    match parse_count(count.as_str()) {
        Some(count) if rest.is_empty() => Ok(GeneratorWords { seed, count }),
        Some(_) => Err(WordsFault::BadWord(4)),
        None => Err(WordsFault::BadWord(3)),
    }
}

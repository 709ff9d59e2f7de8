//! The options that say who signs, for requests and for events.
ghost use Rattle.std.specs.Prelude.{◌≡◌};
ghost use Rattle.awsign_words.specs.Sources.{is_source_option};

// Whether an option says who signs, or for which region.
pub(crate) fn is_source_option(word: &str) -> bool
    ensures { result ≡ is_source_option word.now }
{
    word == "--profile" || word == "--region" || word == "--config" || word == "--credentials"
}

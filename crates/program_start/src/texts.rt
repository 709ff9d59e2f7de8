ghost use Rattle.std.specs.Prelude.{◌≡◌, map, option_copied};
ghost use Rattle.std.specs.String.{string_bytes};
ghost use Rattle.program_start.specs.Texts.{text_of_word, text_of_words};

/// The text that a single word asks for: the help, or the version.
pub fn text_asked(
    help: &'static str,
    version: &'static str,
    words: &[String],
) -> Option<&'static str>
    ensures { option_copied result ≡ text_of_words help.now version.now (map string_bytes words.now) }
{
    match words {
        [word] => text_of(help, version, word.as_str()),
        _ => None,
    }
}

// The text that a word asks for.
fn text_of(help: &'static str, version: &'static str, word: &str) -> Option<&'static str>
    ensures { option_copied result ≡ text_of_word help.now version.now word.now }
{
    match word {
        "--help" => Some(help),
        "--version" => Some(version),
        _ => None,
    }
}

ghost use Rattle.std.specs.Prelude.{◌≡◌, [], IfErr, IfNone, IfOk, IfSome, map, pos};
ghost use Rattle.std.specs.Result.{result_unwrap_or};
ghost use Rattle.std.specs.Str.Parse.{signed_digits_value};
ghost use Rattle.std.specs.String.{string_bytes};
ghost use Rattle.hex.specs.Hex.{decode_of};
ghost use Rattle.tool_case_lines.specs.Line.{HasNoTab, IsParted, read_word, words};
ghost use Rattle.tool_case_lines.specs.Number.{IsNumber};

use hex::FromHexError;
use percent_encoding::percent_decode_str;
use std::alloc::{AllocError, Global};
use std::fmt;

/// The case and the wanted answer of a line, which its last tab parts; nothing of a line without a tab.
pub fn case_of(line: &str) -> Option<(&str, &str)>
    ensures parted { IfSome result (λ parts. IsParted line.now parts.0.now parts.1.now) }
    ensures none { IfNone result (HasNoTab line.now) }
{
    line.rsplit_once('\t')
}

/// The words between the tabs of a case, each with its escapes read.
pub fn words_of(alloc: Global, case: &str) -> Result<Vec<String>, AllocError>
    ensures { IfOk result (λ found. map string_bytes found.items ≡ words case.now) }
{
    let mut words = Vec::new(alloc);
    for word in case.split('\t') {
        words.push(word_of(alloc, word)?)?;
    }
    Ok(words)
}

fn word_of(alloc: Global, word: &str) -> Result<String, AllocError>
    ensures { IfOk result (λ text. string_bytes text ≡ read_word word.now) }
{
    let text = percent_decode_str(word).decode_utf8_lossy(alloc)?;
    text.into_owned(alloc)
}

/// Whether two hexadecimal digits stand behind each `%`.
pub fn are_escapes(case: &str) -> bool {
    for piece in case.split('%').skip(1) {
        if !begins_with_digits(piece) {
            return false;
        }
    }
    true
}

fn begins_with_digits(piece: &str) -> bool {
    match piece.as_bytes() {
        [first, second, ..] => first.is_ascii_hexdigit() && second.is_ascii_hexdigit(),
        _ => false,
    }
}

/// The text, or the fault as its `Debug` shows it.
pub fn shown<E: fmt::Debug + Drop>(
    alloc: Global,
    answer: Result<String, E>,
) -> Result<String, AllocError>
    ensures text { IfOk answer (λ text. result ≡ Ok text) }
    ensures fault { IfErr answer (λ fault. IfOk result (λ text.
        IfSome (E.debug_output fault) (λ output. string_bytes text ≡ output))) }
{
    match answer {
        Ok(text) => Ok(text),
        Err(fault) => format!(in alloc; "{fault:?}"),
    }
}

/// The bytes that the hexadecimal digits of a word stand for, and none where the word is no such text.
pub fn bytes_of_hex(alloc: Global, word: &str) -> Result<Vec<u8>, AllocError>
    ensures { IfOk result (λ bytes. bytes.items ≡ result_unwrap_or (decode_of word.now) []) }
{
    match hex::decode(alloc, word) {
        Ok(bytes) => Ok(bytes),
        Err(FromHexError::OutOfMemory) => Err(AllocError),
        Err(_) => Ok(Vec::new(alloc)),
    }
}

/// The number that a word writes, and 0 where it writes none of 64 bits.
pub fn number(word: &str) -> i64
    ensures written { IsNumber word.now → result ≡ signed_digits_value 10 word.now }
    ensures none { ¬ (IsNumber word.now) → result ≡ pos 0 }
{
    word.parse().unwrap_or(0)
}

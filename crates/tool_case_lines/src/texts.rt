use std::alloc::{AllocError, Global};

/// The answer to words that are no call.
pub fn unknown(alloc: Global) -> Result<String, AllocError> {
    String::from_str(alloc, "no such call")
}

/// The parts before and after the first space of a word.
pub fn halves(word: &str) -> (&str, &str) {
    word.split_once(' ').unwrap_or((word, ""))
}

/// What stands after the key in the first word `KEY REST` of it, and nothing in a word that is the key alone.
pub fn part<'a>(words: &[&'a str], key: &str) -> Option<&'a str> {
    for word in words {
        let (first, rest) = word.split_once(' ').unwrap_or((word, ""));
        if first == key {
            return Some(rest);
        }
    }
    None
}

/// Whether there is a word of the key.
pub fn has_part(words: &[&str], key: &str) -> bool {
    part(words, key).is_some()
}

/// What a value and its copy show, each on one line: one text, or both where they differ.
pub fn compared(
    alloc: Global,
    shown: Result<String, AllocError>,
    of_copy: Result<String, AllocError>,
) -> Result<String, AllocError> {
    let (shown, of_copy) = (shown?, of_copy?);
    if shown == of_copy {
        on_one_line(alloc, shown.as_str())
    } else {
        format!(in alloc; "{shown} and {of_copy}")
    }
}

/// The text with a line feed and a tab as `\n` and `\t`, since an answer stands on one line.
pub fn on_one_line(alloc: Global, text: &str) -> Result<String, AllocError> {
    let mut out = String::new(alloc);
    for c in text.chars() {
        push_visible(&mut out, c)?;
    }
    Ok(out)
}

fn push_visible(out: &mut String, c: char) -> Result<(), AllocError> {
    match c {
        '\n' => out.push_str("\\n"),
        '\t' => out.push_str("\\t"),
        _ => out.push(c),
    }
}

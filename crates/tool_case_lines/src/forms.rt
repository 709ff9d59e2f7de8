//! The forms of the lines: which calls there are, and what stands in the words of each.
//!
//! A line `form`, a tab and patterns with tabs between them says what a case may be: it has a word for each pattern. A
//! pattern is tokens with spaces between them. The last one takes the rest of a word, and each before it a part up to a
//! space. A token is a kind in angle brackets ([`crate::kinds`]), or else texts with `|` between them, one of which
//! stands there. Behind a pattern `..` stand those for all words that follow, in any order and number.
use crate::kinds::is_of_kind;
use std::alloc::{AllocError, Global};

/// The forms that were read so far.
#[derive(Drop)]
pub struct Forms {
    lines: Vec<String>,
}

impl Forms {
    /// No form yet.
    pub fn new(alloc: Global) -> Forms {
        Forms {
            lines: Vec::new(alloc),
        }
    }

    /// Adds the form of a line.
    pub fn push(&mut self, alloc: Global, line: &str) -> Result<(), AllocError> {
        let line = String::from_str(alloc, line)?;
        Ok(self.lines.push(line)?)
    }

    /// Whether words are of one of the forms.
    pub fn allow(&self, words: &[&str]) -> bool {
        for line in &self.lines {
            if is_of_form(line.as_str(), words) {
                return true;
            }
        }
        false
    }
}

// Whether words are of a form.
fn is_of_form(form: &str, words: &[&str]) -> bool {
    for (place, pattern) in form.split('\t').enumerate() {
        if pattern == ".." {
            return are_of_any(after_dots(form), words, place);
        }
        match words.get(place) {
            Some(word) if is_of_pattern(pattern, word) => {}
            _ => return false,
        }
    }
    words.len() == form.split('\t').count()
}

// The patterns for the words that follow.
fn after_dots(form: &str) -> &str {
    match form.split_once("\t..\t") {
        Some((_, patterns)) => patterns,
        None => "",
    }
}

// Whether the words from a place on are of these patterns.
fn are_of_any(patterns: &str, words: &[&str], place: usize) -> bool {
    for word in words.iter().skip(place) {
        if !is_of_any(patterns, word) {
            return false;
        }
    }
    true
}

fn is_of_any(patterns: &str, word: &str) -> bool {
    for pattern in patterns.split('\t') {
        if is_of_pattern(pattern, word) {
            return true;
        }
    }
    false
}

// Whether a word is of a pattern: the last token takes what those before it leave.
fn is_of_pattern(pattern: &str, word: &str) -> bool {
    match pattern.rsplit_once(' ') {
        Some((front, last)) => is_of_tokens(front, last, word),
        None => is_of_token(pattern, word),
    }
}

fn is_of_tokens(front: &str, last: &str, word: &str) -> bool {
    let mut rest = word;
    for token in front.split(' ') {
        match rest.split_once(' ') {
            Some((part, others)) if is_of_token(token, part) => rest = others,
            _ => return false,
        }
    }
    is_of_token(last, rest)
}

fn is_of_token(token: &str, part: &str) -> bool {
    match token.strip_prefix('<') {
        Some(kind) => is_of_kind(kind, part),
        None => is_one_of(token, part),
    }
}

// Whether a part is one of the texts between `|`.
fn is_one_of(texts: &str, part: &str) -> bool {
    for text in texts.split('|') {
        if text == part {
            return true;
        }
    }
    false
}

//! Repeats: `{N TEXT}` in a line stands for the text N times.
use crate::texts::halves;
use std::alloc::{AllocError, Global};

/// Whether each bracket of a case is one of a repeat, which stands in one word.
pub fn are_repeats(case: &str) -> bool {
    for word in case.split('\t') {
        if !is_repeated(word) {
            return false;
        }
    }
    true
}

fn is_repeated(word: &str) -> bool {
    match word.rsplit_once('}') {
        Some((closed, last)) => are_closed(closed) && !last.contains('{'),
        None => !word.contains('{'),
    }
}

fn are_closed(closed: &str) -> bool {
    for piece in closed.split('}') {
        if !ends_in_repeat(piece) {
            return false;
        }
    }
    true
}

// Whether a text ends in a repeat without its last bracket, and has no other.
fn ends_in_repeat(piece: &str) -> bool {
    match piece.split_once('{') {
        Some((_, repeat)) => is_count(halves(repeat).0) && !repeat.contains('{'),
        None => false,
    }
}

fn is_count(text: &str) -> bool {
    let count: Result<u32, _> = text.parse();
    count.is_ok()
}

/// The text with `{N TEXT}` written as the text N times.
pub fn with_repeats(alloc: Global, text: &str) -> Result<String, AllocError> {
    up_to(alloc, text, u32::MAX)
}

/// The text with `{N TEXT}` written as the text once, if N isn't 0.
pub fn written_once(alloc: Global, text: &str) -> Result<String, AllocError> {
    up_to(alloc, text, 1)
}

// The text with each repeat written as often as it says, but at most so often.
fn up_to(alloc: Global, text: &str, most: u32) -> Result<String, AllocError> {
    let mut out = String::new(alloc);
    for piece in text.split('}') {
        push_piece(&mut out, piece, most)?;
    }
    Ok(out)
}

// Appends a text that ends in a repeat without its bracket, or has none.
fn push_piece(out: &mut String, piece: &str, most: u32) -> Result<(), AllocError> {
    match piece.split_once('{') {
        Some((plain, repeat)) => {
            out.push_str(plain)?;
            push_repeated(out, repeat, most)
        }
        None => out.push_str(piece),
    }
}

// Appends the text of `N TEXT`.
fn push_repeated(out: &mut String, repeat: &str, most: u32) -> Result<(), AllocError> {
    let (count, text) = halves(repeat);
    let count: u32 = count.parse().unwrap_or(0);
    for _ in 0..count.min(most) {
        out.push_str(text)?;
    }
    Ok(())
}

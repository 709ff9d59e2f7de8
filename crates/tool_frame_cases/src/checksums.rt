use crate::shown::digits;
use crate::steps::{Steps, all_answers};
use crate::words::{bytes_of, word, words_from};
use mac_core::{Crc, HmacSha256, crc32, hmac_sha256, sha256_hex};
use smithy_core::Mem;
use std::alloc::Global;
use tool_case_lines::unknown;

pub fn answer(alloc: Global, call: &str, words: &[&str]) -> Mem<String> {
    match call {
        "crc32_pieces" => all_answers(alloc, Crc::new(), words),
        _ => of_bytes(alloc, call, words),
    }
}

fn of_bytes(alloc: Global, call: &str, words: &[&str]) -> Mem<String> {
    let first = bytes_of(alloc, word(words, 0))?;
    let second = bytes_of(alloc, word(words, 1))?;
    of_two(
        alloc,
        call,
        first.as_slice(),
        second.as_slice(),
        words_from(words, 2),
    )
}

fn of_two(alloc: Global, call: &str, first: &[u8], second: &[u8], pieces: &[&str]) -> Mem<String> {
    match call {
        "crc32" => checksum_text(alloc, crc32(first)),
        "crc32_appended" => crc32_appended(alloc, first),
        "crc32_joined" => crc32_joined(alloc, first, second),
        "sha256" => sha256_hex(alloc, first),
        "hmac" => digits(alloc, hmac_sha256(first, second).as_slice()),
        "hmac_pieces" => hmac_of_pieces(alloc, first, second, pieces),
        _ => unknown(alloc),
    }
}

// The bytes and their checksum.
fn crc32_appended(alloc: Global, bytes: &[u8]) -> Mem<String> {
    let checksum = crc32(bytes);
    let digits = hex::encode(alloc, bytes)?;
    format!(in alloc; "{digits}{checksum:08x}")
}

// The checksum of the first bytes and then the second, each of which is summed alone.
fn crc32_joined(alloc: Global, first: &[u8], second: &[u8]) -> Mem<String> {
    let mut alone = Crc::new();
    alone.update(second);
    let mut joined = Crc::of_value(crc32(first));
    joined.join(&alone, second.len());
    checksum_text(alloc, joined.value())
}

impl Steps for Crc {
    // The checksum after a piece.
    fn after(&mut self, alloc: Global, piece: &str) -> Mem<String> {
        self.update(bytes_of(alloc, piece)?.as_slice());
        checksum_text(alloc, self.value())
    }
}

fn checksum_text(alloc: Global, checksum: u32) -> Mem<String> {
    format!(in alloc; "{checksum:08x}")
}

// The code under a key in two parts.
fn hmac_of_pieces(alloc: Global, front: &[u8], back: &[u8], pieces: &[&str]) -> Mem<String> {
    let mut hasher = HmacSha256::new_from_parts(front, back);
    for piece in pieces {
        hasher.update(bytes_of(alloc, piece)?.as_slice());
    }
    digits(alloc, hasher.finalize().as_slice())
}

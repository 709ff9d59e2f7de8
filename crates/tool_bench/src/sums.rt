use crate::digest::Digest;
use mac_core::crc32;
use sha2::{Digest as _, Sha256};
use std::alloc::{AllocError, Global};

/// The checksums of so many bytes, so many times.
pub fn checksums(alloc: Global, count: u32, size: usize) -> Result<Digest, AllocError> {
    let mut bytes = vec![in alloc; 7; size]?;
    let mut digest = Digest::new();
    for number in 0..count {
        stamp(&mut bytes, number);
        digest = digest.with(&crc32(bytes.as_slice()).to_be_bytes());
    }
    Ok(digest)
}

/// The hashes of so many bytes, so many times.
pub fn hashes(alloc: Global, count: u32, size: usize) -> Result<Digest, AllocError> {
    let mut bytes = vec![in alloc; 7; size]?;
    let mut digest = Digest::new();
    for number in 0..count {
        stamp(&mut bytes, number);
        digest = digest.with(Sha256::digest(bytes.as_slice()).as_slice());
    }
    Ok(digest)
}

// Makes each turn's bytes differ from the last one's.
fn stamp(bytes: &mut Vec<u8>, number: u32) {
    if let Some(first) = bytes.first_mut() {
        *first = (number & 0xff) as u8;
    }
}

//! CRC-32, HMAC over SHA-256, and the comparison of codes.
//!
//! The layer above is promised that [`crc32`] is the CRC-32 remainder of the bytes, bit by bit
//! (`specs/Crc.antt`), and that [`hmac_sha256`] is RFC 2104 over SHA-256 for a key of any length
//! (`specs/Mac.antt`), both for a text in any pieces (for the checksum also [`updates_join`]). All calls
//! but [`sha256_hex`] take no memory. [`constant_time_eq`] is equality, and has no early exit.
#![tactic(auto)]

mod crc;
mod hmac;
mod laws;
mod powers;
mod same;
mod tables;

pub use crate::crc::{Crc, crc32};
pub use crate::hmac::{HmacSha256, hmac_sha256, sha256_hex};
pub use crate::laws::updates_join;
pub use crate::same::constant_time_eq;

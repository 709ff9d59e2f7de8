ghost use Rattle.std.specs.Prelude.{◌≡◌, ℕ, ◌+◌, ◌-◌, ◌*◌, ◌/◌, ◌%◌, ◌^◌, ◌<◌, ◌≤◌, List, length};
ghost use Rattle.mac_core.specs.Crc.{after_bits, after_bytes, before_any, remainder};

use crate::powers::POWERS;
use crate::tables::TABLES;
use std::marker::Model;

/// A CRC-32 that takes its bytes in pieces.
///
/// Contracts see it as the number that the bits so far have left.
#[derive(Clone, Copy, Debug, PartialEq, Eq)]
pub struct Crc {
    register: u32,
}

impl Model for Crc {
    ghost Value = { ℕ };

    ghost view = { λ crc. crc.register };

    ghost inverse = { λ register. record { register = register } };
}

impl Crc {
    /// A checksum of no bytes.
    pub fn new() -> Crc
        ensures { result ≡ before_any }
    {
        Crc {
            register: 0xFFFF_FFFF,
        }
    }

    /// The checksum of bytes that have this CRC-32.
    pub fn of_value(value: u32) -> Crc
        ensures { result ≡ 0xFFFFFFFF - value }
    {
        Crc {
            register: 0xFFFF_FFFF - value,
        }
    }

    /// Takes the next bytes.
    pub fn update(&mut self, bytes: &[u8])
        ensures { self.new ≡ after_bytes self.old bytes.now }
    {
        self.register = next_bytes(self.register, bytes);
    }

    /// Takes the bytes that another checksum took, so many, without looking at them again: in eight look-ups for each bit of
    /// their number that is 1. The remainder of joined texts follows from those of the parts and the length of the second,
    /// since the steps of a checksum are linear.
    ///
    /// ```rust
    /// let mut joined = Crc::new();
    /// joined.update(first);
    /// let mut other = Crc::new();
    /// other.update(second);
    /// joined.join(&other, second.len());
    /// // joined.value() is crc32(first followed by second)
    /// ```
    pub fn join(&mut self, second: &Crc, count: usize)
        ensures { (bytes : List ℕ) → length bytes ≡ count → second.now ≡ after_bytes before_any bytes → self.new ≡ after_bytes self.old bytes }
    {
        self.join_between(&Crc::new(), second, count);
    }

    /// Takes the bytes that another checksum took between these two states of it, so many, as [`Crc::join`] does.
    #[tactic(auto, using(crate::proofs::PowerLemmas::joined_bytes))]
    pub fn join_between(&mut self, before: &Crc, after: &Crc, count: usize)
        ensures { (bytes : List ℕ) → length bytes ≡ count → after.now ≡ after_bytes before.now bytes → self.new ≡ after_bytes self.old bytes }
    {
        self.register = past_zeros(self.register ^ before.register, count) ^ after.register;
    }

    /// The CRC-32 of all bytes taken so far.
    pub fn value(&self) -> u32
        ensures { result ≡ 0xFFFFFFFF - self.now }
    {
        0xFFFF_FFFF - self.register
    }
}

/// The CRC-32 of the bytes (ISO 3309; the checksum of the event stream encoding).
#[tactic(auto, unfolding(crate::specs::Crc::remainder))]
pub fn crc32(bytes: &[u8]) -> u32
    ensures { result ≡ remainder bytes.now }
{
    let mut crc = Crc::new();
    crc.update(bytes);
    crc.value()
}

fn next_bytes(register: u32, bytes: &[u8]) -> u32
    ensures { result ≡ after_bytes register bytes.now }
{
    let mut left = register;
    let mut rest = bytes;
    'sixteens: while let Some((front, more)) = rest.split_first_chunk::<16>() {
        left = next_sixteen(left, *front);
        rest = more;
    }
    next_few(left, rest)
}

#[tactic(auto, using(crate::proofs::LinearLemmas::none_left))]
fn next_few(register: u32, bytes: &[u8]) -> u32
    ensures { result ≡ after_bytes register bytes.now }
{
    let mut left = register;
    let mut rest = bytes;
    'fours: while let Some((front, more)) = rest.split_first_chunk::<4>() {
        left = next_four(left, *front, 0);
        rest = more;
    }
    next_each(left, rest)
}

fn next_each(register: u32, bytes: &[u8]) -> u32
    ensures { result ≡ after_bytes register bytes.now }
{
    let mut left = register;
    for byte in bytes {
        left = next_byte(left, *byte);
    }
    left
}

// The steps are linear, so what each four bytes leave, with the zeros after them, is xored together. The
// four that wait for the register come last.
#[inline(always)]
fn next_sixteen(register: u32, bytes: [u8; 16]) -> u32
    ensures { result ≡ after_bytes register bytes }
{
    let [a, b, c, d, e, f, g, h, i, j, k, l, m, n, o, p] = bytes;
    next_four(0, [m, n, o, p], 0)
        ^ next_four(0, [i, j, k, l], 4)
        ^ next_four(0, [e, f, g, h], 8)
        ^ next_four(register, [a, b, c, d], 12)
}

// What four bytes leave, with so many zero bytes after them. The register is xored into them in advance,
// and no look-up waits for another one.
#[inline(always)]
fn next_four(register: u32, bytes: [u8; 4], zeros: usize) -> u32
    requires { zeros ≤ 12 }
    ensures { result ≡ after_bits (8 * zeros) (after_bytes register bytes) 0 }
{
    let [a, b, c, d] = bytes;
    let [low, second, third, high] = register.to_le_bytes();
    entry(low ^ a, zeros + 3)
        ^ entry(second ^ b, zeros + 2)
        ^ entry(third ^ c, zeros + 1)
        ^ entry(high ^ d, zeros)
}

#[inline(always)]
fn next_byte(register: u32, byte: u8) -> u32
    ensures { result ≡ after_bits 8 register byte }
{
    let low = (register % 256) as u8;
    entry(low ^ byte, 0) ^ (register / 256)
}

// What the byte leaves of a register of 0, with so many zero bytes after it. A register that holds the
// byte is left so by as many bits of 0.
#[inline(always)]
fn entry(byte: u8, zeros: usize) -> u32
    requires { zeros < 16 }
    ensures { result ≡ after_bits (8 * zeros + 8) byte 0 }
{
    TABLES[zeros][usize::from(byte)]
}

// What so many zero bytes leave of the register: the powers of 2 that make up the number, one after the other.
fn past_zeros(register: u32, count: usize) -> u32
    ensures { result ≡ after_bits (8 * count) register 0 }
{
    let mut left = register;
    let mut rest = count;
    let mut power = 0;
    'powers: while rest > 0 {
        left = past_lowest(left, power, rest);
        rest /= 2;
        power += 1;
    }
    left
}

// What 2^`power` zero bytes leave of the register, where the count is odd, and otherwise the register.
#[tactic(auto, using(crate::proofs::PowerLemmas::lowest))]
fn past_lowest(register: u32, power: usize, count: usize) -> u32
    ensures { result ≡ after_bits (8 * (2 ^ power * (count % 2))) register 0 }
{
    if count % 2 == 1 {
        past_power(register, power)
    } else {
        register
    }
}

// What 2^`power` zero bytes leave of the register, each of whose eight hexadecimal digits is looked up alone.
#[inline(always)]
fn past_power(register: u32, power: usize) -> u32
    ensures { result ≡ after_bits (8 * 2 ^ power) register 0 }
{
    digit_past(register, power, 0)
        ^ digit_past(register, power, 1)
        ^ digit_past(register, power, 2)
        ^ digit_past(register, power, 3)
        ^ digit_past(register, power, 4)
        ^ digit_past(register, power, 5)
        ^ digit_past(register, power, 6)
        ^ digit_past(register, power, 7)
}

// What 2^`power` zero bytes leave of one hexadecimal digit of the register at its place.
#[inline(always)]
fn digit_past(register: u32, power: usize, place: usize) -> u32
    requires { place < 8 }
    ensures { result ≡ after_bits (8 * 2 ^ power) (register / 2 ^ (4 * place) % 16 * 2 ^ (4 * place)) 0 }
{
    let digit = (register >> (4 * place)) % 16;
    POWERS[power % 32][16 * place + digit as usize]
}

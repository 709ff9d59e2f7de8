//! Numbers as words and lines spell them: decimal digits without a leading zero, with `-` before them where they
//! are below 0.
ghost use Rattle.std.specs.Prelude.{◌≡◌, ◌<◌, ◌||◌, IfSome};
ghost use Rattle.std.specs.List.{list_all};
ghost use Rattle.std.specs.Int.{w8, w16, w32, w64};
ghost use Rattle.job_text.specs.ChunkSize.{IsSize, spelled_size};
ghost use Rattle.job_text.specs.Numbers.{is_digit, is_natural, is_negative, natural_below, number};

/// The number that a text spells, where an `i64` holds it.
#[tactic(auto, using(crate::proofs::NumberLemmas::parsed, crate::proofs::NumberLemmas::unparsed))]
pub fn parse_i64(text: &str) -> Option<i64>
    ensures { result ≡ number w64 text.now }
{
    if is_number(text.as_bytes()) {
        text.parse::<i64>().ok()
    } else {
        None
    }
}

/// The number that a text spells, where an `i32` holds it.
#[tactic(auto, using(crate::proofs::NumberLemmas::narrowed))]
pub fn parse_i32(text: &str) -> Option<i32>
    ensures { result ≡ number w32 text.now }
{
    i32::try_from(parse_i64(text)?).ok()
}

/// The number that a text spells, where an `i16` holds it.
#[tactic(auto, using(crate::proofs::NumberLemmas::narrowed))]
pub fn parse_i16(text: &str) -> Option<i16>
    ensures { result ≡ number w16 text.now }
{
    i16::try_from(parse_i64(text)?).ok()
}

/// The number that a text spells, where an `i8` holds it.
#[tactic(auto, using(crate::proofs::NumberLemmas::narrowed))]
pub fn parse_i8(text: &str) -> Option<i8>
    ensures { result ≡ number w8 text.now }
{
    i8::try_from(parse_i64(text)?).ok()
}

/// The number of nanoseconds that a text spells, where it is below a second.
#[tactic(auto, using(crate::proofs::NumberLemmas::below), unfolding(crate::specs::Numbers::natural_below))]
pub fn parse_nanos(text: &str) -> Option<u32>
    ensures value { result ≡ natural_below 1000000000 text.now }
    ensures below { IfSome result (λ nanos. nanos < 1000000000) }
{
    let nanos = parse_u32(text)?;
    (nanos < 1_000_000_000).then_some(nanos)
}

/// The count that a text spells, where it is at most 100,000.
#[tactic(auto, using(crate::proofs::NumberLemmas::below), unfolding(crate::specs::Numbers::natural_below))]
pub fn parse_count(text: &str) -> Option<u64>
    ensures { result ≡ natural_below 100001 text.now }
{
    let count = parse_u64(text)?;
    (count <= 100_000).then_some(count)
}

/// The size of a chunk that a text spells: 1 to 67,108,864 bytes.
#[tactic(auto, using(crate::proofs::NumberLemmas::below), unfolding(crate::specs::Numbers::natural_below, crate::specs::ChunkSize::spelled_size))]
pub fn parse_size(text: &str) -> Option<usize>
    ensures value { result ≡ spelled_size text.now }
    ensures range { IfSome result IsSize }
{
    let size = parse_u64(text)?;
    (size > 0 && size <= 67_108_864).then_some(size as usize)
}

/// The natural number that a text spells, where a `u64` holds it.
#[tactic(auto, using(crate::proofs::NumberLemmas::below))]
pub fn parse_u64(text: &str) -> Option<u64>
    ensures { result ≡ natural_below 18446744073709551616 text.now }
{
    if is_natural(text.as_bytes()) {
        text.parse::<u64>().ok()
    } else {
        None
    }
}

// The natural number that a text spells, where a `u32` holds it.
#[tactic(auto, using(crate::proofs::NumberLemmas::below))]
fn parse_u32(text: &str) -> Option<u32>
    ensures { result ≡ natural_below 4294967296 text.now }
{
    if is_natural(text.as_bytes()) {
        text.parse::<u32>().ok()
    } else {
        None
    }
}

// The text spells a number, which may not fit.
fn is_number(text: &[u8]) -> bool
    ensures { result ≡ (is_natural text.now || is_negative text.now) }
{
    is_natural(text) || is_negative(text)
}

// `-`, and then decimal digits, the first of which isn't zero.
fn is_negative(text: &[u8]) -> bool
    ensures { result ≡ is_negative text.now }
{
    match text {
        [b'-', b'0', ..] => false,
        [b'-', digits @ ..] => is_natural(digits),
        _ => false,
    }
}

// Decimal digits without a leading zero.
fn is_natural(text: &[u8]) -> bool
    ensures { result ≡ is_natural text.now }
{
    match text {
        [] => false,
        [b'0', _, ..] => false,
        _ => are_digits(text),
    }
}

// Decimal digits.
fn are_digits(text: &[u8]) -> bool
    ensures { result ≡ list_all is_digit text.now }
{
    text.iter().all(|b| b.is_ascii_digit())
}

//! What the statuses mean, and the version.
ghost use Rattle.std.specs.Prelude.{◌≡◌, Ok, codes};
ghost use Rattle.firuvaik_c.specs.Answers.{Lends};
ghost use Rattle.firuvaik_c.specs.Statuses.{door_status, frame_status, request_status, settings_status, status_text};

use crate::answer::{Answer, lend};

/// Writes what a status means, in English.
#[unsafe(no_mangle)]
pub extern "C" fn firuvaik_status_text(status: u32, out: &mut [u8]) -> Answer
    ensures { Lends (Ok (status_text status)) out.old out.new result }
{
    lend(status_text(status).as_bytes(), out)
}

/// Writes the library's version.
#[unsafe(no_mangle)]
pub extern "C" fn firuvaik_version(out: &mut [u8]) -> Answer
    ensures { Lends (Ok (codes "0.1.0")) out.old out.new result }
{
    lend(b"0.1.0", out)
}

fn status_text(status: u32) -> &'static str
    ensures { result.now ≡ status_text status }
{
    match status {
        0..=19 => request_status(status),
        20..=59 => frame_status(status),
        60..=89 => door_status(status),
        90..=99 => settings_status(status),
        _ => "there is no such status",
    }
}

// The statuses of requests and signatures.
fn request_status(status: u32) -> &'static str
    ensures { result.now ≡ request_status status }
{
    match status {
        0 => "all was written",
        1 => "more room is wanted",
        2 => "memory ran out",
        3 => "a text isn't UTF-8",
        4 => "a flag is none that there is",
        5 => "the moment lies outside the years 0 to 9999",
        6 => "the target isn't accepted",
        7 => "the name of a header isn't accepted",
        8 => "the value of a header isn't accepted",
        9 => "the host is no header's value",
        10 => "the session token is no header's value",
        11 => "the payload's text is no header's value",
        12 => "key id, region or service can't stand in a header",
        13 => "there is no host",
        14 => "the session token can't have this name",
        15 => "there is no expiry",
        _ => "there is no such status",
    }
}

// The statuses of frames and their headers.
fn frame_status(status: u32) -> &'static str
    ensures { result.now ≡ frame_status status }
{
    match status {
        20 => "the name of a message's header is too long",
        21 => "the value of a message's header is too long",
        23 => "the headers of a message are too long",
        24 => "the payload of a message is too long",
        25 => "the frame is too long",
        30 => "more bytes are wanted",
        31 => "the value of a message's header passes the bytes that are there",
        32 => "a message's header has a kind that there isn't",
        33 => "the length of the headers isn't one",
        34 => "the length of the frame isn't one, or its bytes aren't all there",
        35 => "a name or a text in the frame isn't UTF-8",
        36 => "the checksum of the frame is another one",
        37 => "the checksum of the prelude is another one",
        40 => "there is no such kind of value",
        41 => "the number doesn't fit its kind",
        42 => "a UUID has 16 bytes",
        50 => "bytes follow the frame",
        51 => "the frame's headers aren't those of a signed one",
        52 => "the frame's date is no whole second in the years 0 to 9999",
        53 => "the frame's payload is neither empty nor an event's frame",
        54 => "the frame has another signature than the one that it carries",
        _ => "there is no such status",
    }
}

// The statuses of a service's door.
fn door_status(status: u32) -> &'static str
    ensures { result.now ≡ door_status status }
{
    match status {
        60 => "a header or the host isn't fit for signing",
        61 => "a signature in headers and in the query",
        62 => "no signature",
        63 => "a part of the signature is missing",
        64 => "a part of the signature is repeated",
        65 => "another algorithm",
        66 => "a malformed signature",
        67 => "the date is no date",
        68 => "a malformed credential",
        69 => "a credential for another service",
        70 => "a credential for another region",
        71 => "a credential of another day",
        72 => "the expiry is no number",
        73 => "an expiry over the limit",
        74 => "too many signed headers",
        75 => "the names of the signed headers aren't in order",
        76 => "a signed header isn't there",
        77 => "the host isn't signed",
        78 => "a header that has to be signed isn't",
        79 => "too early",
        80 => "too late",
        81 => "x-amz-content-sha256 is repeated",
        82 => "x-amz-content-sha256 is neither a digest nor a known word",
        83 => "the key isn't known",
        84 => "the body has another digest than the one that is shown",
        85 => "the request has another signature than the one that it carries",
        _ => "there is no such status",
    }
}

// The statuses of settings.
fn settings_status(status: u32) -> &'static str
    ensures { result.now ≡ settings_status status }
{
    match status {
        90 => "a line of the config text isn't one of a profile file",
        91 => "a line of the credentials text isn't one of a profile file",
        92 => "no variable and no profile has a key",
        93 => "AWS_ACCESS_KEY_ID is set and AWS_SECRET_ACCESS_KEY isn't",
        94 => "no variable and no profile has a region",
        _ => "there is no such status",
    }
}

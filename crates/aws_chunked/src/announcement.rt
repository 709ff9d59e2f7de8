ghost use Rattle.std.specs.Prelude.{◌≡◌, ◌++◌, IfOk, OnErr, OnOk, map, string_bytes};
ghost use Rattle.std.specs.Fmt.{decimal};
ghost use Rattle.smithy_core.specs.TextPairs.{inserted, lower};
ghost use Rattle.aws_chunked.specs.Announcement.{Announces, IsAnnouncedLength, announced_payload, declared_lengths, next_trailer_name, options_for, trailer_length, trailer_names, with_trailer_names};

use crate::AWS_CHUNKED;
use crate::arrivals::signed_length;
use crate::options::AwsChunkedBodyOptions;
use crate::signing::has_signature;
use smithy_core::{Headers, Mem};
use std::alloc::{AllocError, Global};
use std::fmt;

/// How long `x-amz-trailer-signature:` and 64 digits are.
const SIGNATURE_TRAILER: u64 = 88;

/// Why a body in chunks isn't announced.
#[derive(Clone, Copy, Debug, PartialEq, Eq)]
pub enum AnnounceFault {
    /// The options have the encoding off.
    Disabled,
    /// The trailers have other lengths than the options declare.
    TrailerLengths {
        /// The bytes of the trailers' lines, each with its CRLF, that of their signature among them.
        actual: u64,
        /// The declared bytes, with 2 for each CRLF.
        expected: u64,
    },
    /// The length of the text doesn't fit 64 bits.
    TooLong,
    /// Memory ran out.
    NoMemory,
}

impl fmt::Display for AnnounceFault {
    ghost use Rattle.std.specs.Prelude.{Some};
    ghost use Rattle.aws_chunked.specs.Announcement.{announce_fault_text};

    ghost output = { λ fault. Some (announce_fault_text fault) };

    fn fmt<W: fmt::Write>(&self, f: &mut fmt::Formatter<W>) -> fmt::Result {
        match self {
            AnnounceFault::Disabled => f.write_str("the encoding in chunks is off"),
            AnnounceFault::TrailerLengths { actual, expected } => {
                write!(
                    f,
                    "the trailers have {actual} bytes, not the {expected} that were declared"
                )
            }
            AnnounceFault::TooLong => f.write_str(
                "the text in chunks is longer than 64 bits count",
            ),
            AnnounceFault::NoMemory => f.write_str("no memory"),
        }
    }
}

impl std::error::Error for AnnounceFault {}

impl From<AllocError> for AnnounceFault {
    ghost use Rattle.aws_chunked.specs.declared.announcement.AnnounceFault.TheVariants.{NoMemory};

    ghost from_gives = { λ _ fault. fault ≡ NoMemory };

    fn from(_e: AllocError) -> AnnounceFault {
        AnnounceFault::NoMemory
    }
}

impl AwsChunkedBodyOptions {
    /// The options of a body of so many bytes with these trailers, signed or not: chunks of 65,536 bytes, and the length of each
    /// trailer, that of their signature too where they have one.
    pub fn for_body(
        alloc: Global,
        stream_length: u64,
        trailers: &Headers,
        is_signed: bool,
    ) -> Mem<AwsChunkedBodyOptions>
        ensures { IfOk result (λ options. options ≡ options_for stream_length trailers.now is_signed) }
    {
        let lengths = declared_lengths(alloc, trailers, is_signed)?;
        let options = AwsChunkedBodyOptions::new(stream_length, lengths);
        Ok(options.signed_chunked_encoding(is_signed))
    }

    /// Announces the body of these options, with these trailers behind it, in the headers of its request, which is signed then:
    /// `content-encoding` gets `aws-chunked`, `x-amz-decoded-content-length` is the length of the data, `content-length` that of
    /// the text, and `x-amz-trailer` has the names of the trailers, where there are some. The answer is what the request is signed
    /// over in place of its body: hand it to `PayloadSigningOverride::Precomputed` or `SignableBody::Precomputed`, which take it as
    /// they take a digest.
    ///
    /// Headers of these names that are there are replaced, but for `content-encoding`, which gets a line.
    ///
    /// # Errors
    ///
    /// The first of these, and the headers stay as they are: [`AnnounceFault::Disabled`] where the encoding is off,
    /// [`AnnounceFault::TrailerLengths`] where the trailers' lines are in all longer or shorter than declared, as the body would
    /// refuse behind its last chunk, and [`AnnounceFault::TooLong`] where the text's length doesn't fit 64 bits.
    #[tactic(auto, unfolding(crate::specs::Announcement::announced_headers))]
    pub fn announce(
        &self,
        alloc: Global,
        headers: &mut Headers,
        trailers: &Headers,
    ) -> Result<String, AnnounceFault>
        ensures announces { Announces self.now trailers.now headers.old headers.new result }
        ensures err { OnErr result (headers.new ≡ headers.old) }
    {
        let length = self.announced_length(trailers)?;
        let payload = payload_text(alloc, self.is_signed(), trailers)?;
        let mut announced = headers.try_clone()?;
        announced.append("content-encoding", AWS_CHUNKED)?;
        insert_length(
            alloc,
            &mut announced,
            "x-amz-decoded-content-length",
            self.stream_length(),
        )?;
        insert_length(alloc, &mut announced, "content-length", length)?;
        insert_names(alloc, &mut announced, trailers)?;
        *headers = announced;
        Ok(payload)
    }

    // How long the text is, where these trailers are as declared and the number fits.
    #[tactic(auto, unfolding(crate::specs::Announcement::unannounced))]
    fn announced_length(&self, trailers: &Headers) -> Result<u64, AnnounceFault>
        ensures { IsAnnouncedLength self.now trailers.now result }
    {
        if self.disabled() {
            return Err(AnnounceFault::Disabled);
        }
        let actual = signed_length(self.is_signed(), trailers);
        let expected = self.expected_length();
        if actual != expected {
            return Err(AnnounceFault::TrailerLengths { actual, expected });
        }
        match self.checked_encoded_length() {
            Some(length) => Ok(length),
            None => Err(AnnounceFault::TooLong),
        }
    }
}

// How long each trailer is, and their signature, where they have one.
fn declared_lengths(alloc: Global, trailers: &Headers, is_signed: bool) -> Mem<Vec<u64>>
    ensures { IfOk result (λ lengths. lengths.items ≡ declared_lengths is_signed trailers.now) }
{
    let mut lengths = trailer_lengths(alloc, trailers)?;
    if has_signature(is_signed, trailers) {
        lengths.push(SIGNATURE_TRAILER)?;
    }
    Ok(lengths)
}

// How long `name:value` of each trailer is.
fn trailer_lengths(alloc: Global, trailers: &Headers) -> Mem<Vec<u64>>
    ensures { IfOk result (λ lengths. lengths.items ≡ map trailer_length trailers.now) }
{
    let mut lengths = Vec::new(alloc);
    for (name, value) in trailers.iter() {
        lengths.push(trailer_length(name, value))?;
    }
    Ok(lengths)
}

// How long `name:value` is, counted up to the greatest number.
fn trailer_length(name: &str, value: &str) -> u64
    ensures { result ≡ trailer_length (name.now, value.now) }
{
    let texts = (name.len() as u64).saturating_add(value.len() as u64);
    texts.saturating_add(1)
}

// What a request is signed over in place of its body, which is in chunks.
fn payload_text(alloc: Global, is_signed: bool, trailers: &Headers) -> Mem<String>
    ensures { IfOk result (λ text. string_bytes text ≡ announced_payload is_signed trailers.now) }
{
    if has_signature(is_signed, trailers) {
        return String::from_str(alloc, "STREAMING-AWS4-HMAC-SHA256-PAYLOAD-TRAILER");
    }
    if is_signed {
        return String::from_str(alloc, "STREAMING-AWS4-HMAC-SHA256-PAYLOAD");
    }
    String::from_str(alloc, "STREAMING-UNSIGNED-PAYLOAD-TRAILER")
}

// Inserts a header whose value is a length.
fn insert_length(alloc: Global, headers: &mut Headers, name: &str, length: u64) -> Mem<()>
    ensures { OnOk result (headers.new ≡ inserted headers.old (lower name.now) (decimal length)) }
{
    let text = format!(in alloc; "{length}")?;
    headers.insert(name, text.as_str())
}

// Inserts the names of the trailers, where there are some.
fn insert_names(alloc: Global, headers: &mut Headers, trailers: &Headers) -> Mem<()>
    ensures { OnOk result (headers.new ≡ with_trailer_names trailers.now headers.old) }
{
    if trailers.is_empty() {
        return Ok(());
    }
    let names = joined_names(alloc, trailers)?;
    headers.insert("x-amz-trailer", names.as_str())?;
    Ok(())
}

/// The names of the trailers in order, with `,` between, as the header `x-amz-trailer` has them.
#[tactic(auto, using(crate::proofs::AnnouncementLemmas::names_joined, crate::proofs::AnnouncementLemmas::name_more))]
pub fn joined_names(alloc: Global, trailers: &Headers) -> Mem<String>
    ensures { IfOk result (λ names. string_bytes names ≡ trailer_names trailers.now) }
{
    let mut names = String::new(alloc);
    let mut is_first = true;
    for (name, _) in trailers.iter() {
        push_name(&mut names, is_first, name)?;
        is_first = false;
    }
    Ok(names)
}

// The name, behind `,` where it isn't the first.
fn push_name(names: &mut String, is_first: bool, name: &str) -> Mem<()>
    ensures { OnOk result (string_bytes names.new ≡ string_bytes names.old ++ next_trailer_name is_first name.now) }
{
    if !is_first {
        names.push_str(",")?;
    }
    names.push_str(name)
}

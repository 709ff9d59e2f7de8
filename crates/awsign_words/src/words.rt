//! The words of the tool.
ghost use Rattle.std.specs.Prelude.{◌≡◌, ◌==◌, None, IfOk, map, slice_index};
ghost use Rattle.std.specs.List.{list_all};
ghost use Rattle.std.specs.String.{string_bytes};
ghost use Rattle.http_header.specs.Token.{is_token_byte};
ghost use Rattle.job_text.specs.Words.{TakesWord};
ghost use Rattle.awsign_words.specs.Words.{ReadsAsked, ReadsCommand, ReadsOptions, ReadsVerify, all_settings_words, all_verify_words, all_words, asked_url, checksum_named, command_words, form_named, given_words, has, has_payload, is_chunk_option, is_fit, is_flag, is_method, is_no_operand, is_payload, is_payload_option, is_printing_option, is_request_option, is_signing_flag, is_spent, lacks_option, minus, no_words, sign_wanted, take_header, take_operand, take_other, take_trailer, take_value, takes_value, showing_words, to_chunk, to_sign, to_stream, to_show, to_verify, verify_words, words_behind};
ghost use Rattle.job_text.specs.Lines.{header_of_line};
ghost use Rattle.awsign_words.specs.EventWords.{events_words};

use crate::command::Command;
use crate::events::{EventsAsked, read_events};
use crate::expiry::expiry_named;
use crate::raw_path::encoded_url;
use crate::sources::is_source_option;
use awsign_text::Form;
use http_header::is_token_char;
use job_text::{ChunkSize, TakeWord, WordsFault, cut_pair, parse_i64, take_words};
use smithy_core::{Env, Headers, Mem};
use std::alloc::Global;

/// What the words ask for.
#[derive(Drop)]
pub enum AskedCommand<'a> {
    /// To print a signed request, or a presigned URL.
    Signing(Asked<'a>),
    /// To say who signed a request.
    Verifying(VerifyAsked<'a>),
    /// To say which settings are used under these options, and where each came from.
    Showing(Env),
    /// To print a signed request, and to write its body in chunks.
    Chunking(Asked<'a>),
    /// To print, write or check events.
    Streaming(EventsAsked),
}

/// A checksum of data, which goes behind it as a trailer.
#[derive(Clone, Copy, Debug, PartialEq, Eq)]
pub enum Checksum {
    /// CRC-32.
    Crc32,
    /// SHA-256.
    Sha256,
}

/// What the words of `verify` ask for.
#[derive(Drop)]
pub struct VerifyAsked<'a> {
    /// The values of the options, by their words.
    pub options: Env,
    /// The headers in order, beside a method and a URL.
    pub headers: Headers,
    /// The method and the URL; without them the input has the request.
    pub named: Option<(&'a str, &'a str)>,
}

/// What the words of `sign`, `presign` and `chunk` ask for.
#[derive(Drop)]
pub struct Asked<'a> {
    /// Whether a URL is presigned, and not a request signed.
    pub presigns: bool,
    /// The values of the options, by their words.
    pub options: Env,
    /// The headers in order.
    pub headers: Headers,
    /// The trailers in order, which only `chunk` has.
    pub trailers: Headers,
    /// The method.
    pub method: &'a str,
    /// The URL.
    pub url: &'a str,
}

impl<'a> Asked<'a> {
    /// The URL that goes out: with its path encoded, where an option asks for that.
    pub fn url_sent(&self, alloc: Global) -> Mem<String>
        ensures { IfOk result (λ url. string_bytes url ≡ asked_url (sign_wanted self.now)) }
    {
        if has(&self.options, "--encode-path") {
            encoded_url(alloc, self.url)
        } else {
            String::from_str(alloc, self.url)
        }
    }

    /// The same with another URL.
    pub fn with_url(self, url: &'a str) -> Asked<'a>
        ensures { sign_wanted result ≡ record (sign_wanted self.entry) { url = url.now } }
    {
        Asked { url, ..self }
    }
}

/// What the words so far gave, and the option that waits for its value.
#[derive(Drop)]
pub struct GivenWords<'a> {
    command: Command,
    options: Env,
    headers: Headers,
    trailers: Headers,
    method: Option<&'a str>,
    url: Option<&'a str>,
    awaited: Option<&'a str>,
}

impl<'a> GivenWords<'a> {
    /// No words yet.
    pub fn new(alloc: Global, command: Command) -> Self
        ensures { given_words result ≡ no_words command }
    {
        GivenWords {
            command,
            options: Env::new(alloc),
            headers: Headers::new(alloc),
            trailers: Headers::new(alloc),
            method: None,
            url: None,
            awaited: None,
        }
    }

    // Takes the value at a place of an option that no longer waits.
    #[tactic(auto, unfolding(crate::specs::Words::take_value))]
    fn take_value(&mut self, option: &str, place: usize, value: &str) -> Result<(), WordsFault>
        requires { self.old.awaited ≡ None }
        ensures { TakesWord (take_value (given_words self.old) option.now value.now) place (given_words self.new) result }
    {
        if option == "-H" {
            return self.take_header(place, value);
        }
        if option == "--trailer" {
            return self.take_trailer(place, value);
        }
        if !is_fit(option, value) {
            return Err(WordsFault::BadWord(place));
        }
        self.options.set(option, value)?;
        Ok(())
    }

    // Takes a header at a place.
    fn take_header(&mut self, place: usize, value: &str) -> Result<(), WordsFault>
        requires { self.old.awaited ≡ None }
        ensures { TakesWord (take_header (given_words self.old) (header_of_line value.now)) place (given_words self.new) result }
    {
        let (name, value) = cut_pair(value).ok_or(WordsFault::BadWord(place))?;
        self.headers.append(name, value)?;
        Ok(())
    }

    // Takes a trailer at a place.
    fn take_trailer(&mut self, place: usize, value: &str) -> Result<(), WordsFault>
        requires { self.old.awaited ≡ None }
        ensures { TakesWord (take_trailer (given_words self.old) (header_of_line value.now)) place (given_words self.new) result }
    {
        let (name, value) = cut_pair(value).ok_or(WordsFault::BadWord(place))?;
        self.trailers.append(name, value)?;
        Ok(())
    }

    // Takes a word at a place that isn't a value.
    #[tactic(auto, unfolding(crate::specs::Words::take_other))]
    fn take_other(&mut self, place: usize, word: &'a str) -> Result<(), WordsFault>
        requires { self.old.awaited ≡ None }
        ensures { TakesWord (take_other (given_words self.old) word.now) place (given_words self.new) result }
    {
        if is_spent(&self.options, word) {
            return Err(WordsFault::BadWord(place));
        }
        if takes_value(self.command, word) {
            self.awaited = Some(word);
        } else if is_flag(self.command, word) {
            self.options.set(word, "")?;
        } else if is_no_operand(self.command, word) {
            return Err(WordsFault::BadWord(place));
        } else {
            return self.take_operand(place, word);
        }
        Ok(())
    }

    // Takes an operand at a place.
    fn take_operand(&mut self, place: usize, word: &'a str) -> Result<(), WordsFault>
        requires { self.old.awaited ≡ None }
        ensures { let given = given_words self.old in TakesWord (take_operand given given.method given.url word.now) place (given_words self.new) result }
    {
        match self.method {
            None => {
                if !is_method(word) {
                    return Err(WordsFault::BadWord(place));
                }
                self.method = Some(word);
            }
            Some(_) => match self.url {
                None => self.url = Some(word),
                Some(_) => return Err(WordsFault::BadWord(place)),
            },
        }
        Ok(())
    }

    /// What is to be signed, where the place behind the last word is reached.
    pub fn finish(self, place: usize) -> Result<Asked<'a>, WordsFault>
        ensures { ReadsAsked (all_words place (given_words self.entry)) result }
    {
        let presigns = self.command.is_presign();
        if lacks_option(self.command, &self.options) {
            return Err(WordsFault::BadWord(place));
        }
        match (self.awaited, self.method, self.url) {
            (None, Some(method), Some(url)) => Ok(Asked {
                presigns,
                options: self.options,
                headers: self.headers,
                trailers: self.trailers,
                method,
                url,
            }),
            _ => Err(WordsFault::BadWord(place)),
        }
    }

    /// What is to be verified, where the place behind the last word is reached.
    pub fn finish_verify(self, place: usize) -> Result<VerifyAsked<'a>, WordsFault>
        ensures { ReadsVerify (all_verify_words place (given_words self.entry)) result }
    {
        let named = match (self.awaited, self.method, self.url) {
            (None, Some(method), Some(url)) => Some((method, url)),
            (None, None, _) if self.headers.len() == 0 => None,
            _ => return Err(WordsFault::BadWord(place)),
        };
        Ok(VerifyAsked {
            options: self.options,
            headers: self.headers,
            named,
        })
    }

    /// The options under which settings are shown, where the place behind the last word is reached.
    pub fn finish_settings(self, place: usize) -> Result<Env, WordsFault>
        ensures { ReadsOptions (all_settings_words place (given_words self.entry)) result }
    {
        match self.awaited {
            Some(_) => Err(WordsFault::BadWord(place)),
            None => Ok(self.options),
        }
    }
}

impl<'a> TakeWord<'a> for GivenWords<'a> {
    ghost use Rattle.awsign_words.specs.Words.{Given, given_words, given_word};

    ghost Given = { Given };

    ghost given = { given_words };

    ghost step = { given_word };

    fn take_word(&mut self, place: usize, word: &'a str) -> Result<(), WordsFault> {
        match self.awaited.take() {
            Some(option) => self.take_value(option, place, word),
            None => self.take_other(place, word),
        }
    }
}

// Whether the option stood.
fn has(options: &Env, word: &str) -> bool
    ensures { result ≡ has options.now word.now }
{
    options.get(word).is_some()
}

// Whether an option that the command needs didn't stand.
fn lacks_option(command: Command, options: &Env) -> bool
    ensures { result ≡ lacks_option command options.now }
{
    (command.is_presign() && !has(options, "--expires"))
        || (command.is_chunk() && !(has(options, "--data") && has(options, "--out")))
}

// Whether the option can't stand any more.
fn is_spent(options: &Env, word: &str) -> bool
    ensures { result ≡ is_spent options.now word.now }
{
    has(options, word) || (is_payload(word) && has_payload(options))
}

fn has_payload(options: &Env) -> bool
    ensures { result ≡ has_payload options.now }
{
    has(options, "--data")
        || has(options, "--payload-hash")
        || has(options, "--payload-text")
        || has(options, "--unsigned")
}

fn is_payload(word: &str) -> bool
    ensures { result ≡ is_payload word.now }
{
    is_payload_option(word) || word == "--unsigned"
}

fn is_payload_option(word: &str) -> bool
    ensures { result ≡ is_payload_option word.now }
{
    word == "--data" || word == "--payload-hash" || word == "--payload-text"
}

fn is_request_option(word: &str) -> bool
    ensures { result ≡ is_request_option word.now }
{
    word == "--service" || word == "--at" || word == "-H"
}

fn is_printing_option(word: &str) -> bool
    ensures { result ≡ is_printing_option word.now }
{
    word == "--as" || is_payload_option(word)
}

fn is_chunk_option(word: &str) -> bool
    ensures { result ≡ is_chunk_option word.now }
{
    word == "--data"
        || word == "--out"
        || word == "--as"
        || word == "--size"
        || word == "--checksum"
        || word == "--trailer"
}

fn takes_value(command: Command, word: &str) -> bool
    ensures { result ≡ takes_value command word.now }
{
    is_source_option(word)
        || (command.is_request() && is_request_option(word))
        || (command.prints() && is_printing_option(word))
        || (command.is_presign() && word == "--expires")
        || (command.is_chunk() && is_chunk_option(word))
}

// Whether an option without a value says how a request is signed.
fn is_signing_flag(command: Command, word: &str) -> bool
    ensures { result ≡ is_signing_flag command word.now }
{
    (command.prints() && word == "--unsigned")
        || (command.signs_request() && word == "--encode-path")
}

fn is_flag(command: Command, word: &str) -> bool
    ensures { result ≡ is_flag command word.now }
{
    is_signing_flag(command, word)
        || (command.is_request() && word == "--s3")
        || (command.is_presign() && word == "--long")
        || (command.is_chunk() && word == "--signed")
}

fn is_no_operand(command: Command, word: &str) -> bool
    ensures { result ≡ is_no_operand command word.now }
{
    begins_with_minus(word) || !command.is_request()
}

fn begins_with_minus(word: &str) -> bool
    ensures { result ≡ slice_index word.now 0 == minus }
{
    match word.as_bytes() {
        [b'-', ..] => true,
        _ => false,
    }
}

/// Whether the text is a method: a token (RFC 9110, section 9.1).
pub fn is_method(word: &str) -> bool
    ensures { result ≡ is_method word.now }
{
    !word.is_empty() && has_token_bytes(word)
}

fn has_token_bytes(word: &str) -> bool
    ensures { result ≡ list_all is_token_byte word.now }
{
    word.as_bytes().iter().all(|byte| is_token_char(*byte))
}

// Whether a value fits its option.
fn is_fit(option: &str, value: &str) -> bool
    ensures { result ≡ is_fit option.now value.now }
{
    match option {
        "--at" => parse_i64(value).is_some(),
        "--expires" => expiry_named(value).is_some(),
        "--as" => form_named(value).is_some(),
        "--size" => ChunkSize::parse(value).is_some(),
        "--checksum" => checksum_named(value).is_some(),
        _ => true,
    }
}

/// The form that a word names.
pub fn form_named(word: &str) -> Option<Form>
    ensures { result ≡ form_named word.now }
{
    match word {
        "curl" => Some(Form::Curl),
        "headers" => Some(Form::Headers),
        "json" => Some(Form::Json),
        "http" => Some(Form::Http),
        "url" => Some(Form::Url),
        _ => None,
    }
}

/// The checksum that a word names.
pub fn checksum_named(word: &str) -> Option<Checksum>
    ensures { result ≡ checksum_named word.now }
{
    match word {
        "crc32" => Some(Checksum::Crc32),
        "sha256" => Some(Checksum::Sha256),
        _ => None,
    }
}

/// What the words behind the program's name ask for: a command, and then its options in any order, with a method and a URL among them;
/// `settings` has only options.
///
/// # Errors
///
/// The place of the first bad word, or the place behind the last word where one is missing.
pub fn read_command<'a>(alloc: Global, words: &'a [String]) -> Result<AskedCommand<'a>, WordsFault>
    ensures { ReadsCommand (command_words (map string_bytes words.now)) result }
{
    let [first, rest @ ..] = words else {
        return Err(WordsFault::BadWord(1));
    };
    match first.as_str() {
        "sign" => read_signing(alloc, Command::Sign, rest),
        "presign" => read_signing(alloc, Command::Presign, rest),
        "verify" => read_verifying(alloc, rest),
        "settings" => read_showing(alloc, rest),
        "chunk" => read_chunking(alloc, rest),
        "events" => read_streaming(alloc, rest),
        _ => Err(WordsFault::BadWord(1)),
    }
}

// What the words behind `sign` or `presign` ask for.
fn read_signing<'a>(
    alloc: Global,
    command: Command,
    words: &'a [String],
) -> Result<AskedCommand<'a>, WordsFault>
    ensures { ReadsCommand (to_sign (words_behind command (map string_bytes words.now))) result }
{
    match read_behind(alloc, command, words) {
        Ok(asked) => Ok(AskedCommand::Signing(asked)),
        Err(fault) => Err(fault),
    }
}

// What the words behind `chunk` ask for.
fn read_chunking<'a>(alloc: Global, words: &'a [String]) -> Result<AskedCommand<'a>, WordsFault>
    ensures { ReadsCommand (to_chunk (words_behind Command.Chunk (map string_bytes words.now))) result }
{
    match read_behind(alloc, Command::Chunk, words) {
        Ok(asked) => Ok(AskedCommand::Chunking(asked)),
        Err(fault) => Err(fault),
    }
}

// What the words behind `events` ask for.
fn read_streaming<'a>(alloc: Global, words: &[String]) -> Result<AskedCommand<'a>, WordsFault>
    ensures { ReadsCommand (to_stream (events_words (map string_bytes words.now))) result }
{
    match read_events(alloc, words) {
        Ok(asked) => Ok(AskedCommand::Streaming(asked)),
        Err(fault) => Err(fault),
    }
}

#[tactic(auto, unfolding(crate::specs::Words::words_behind))]
fn read_behind<'a>(
    alloc: Global,
    command: Command,
    words: &'a [String],
) -> Result<Asked<'a>, WordsFault>
    ensures { ReadsAsked (words_behind command (map string_bytes words.now)) result }
{
    let mut given = GivenWords::new(alloc, command);
    let place = take_words(&mut given, 2, words)?;
    given.finish(place)
}

// What the words behind `verify` ask for.
fn read_verifying<'a>(alloc: Global, words: &'a [String]) -> Result<AskedCommand<'a>, WordsFault>
    ensures { ReadsCommand (to_verify (verify_words (map string_bytes words.now))) result }
{
    match read_verify(alloc, words) {
        Ok(asked) => Ok(AskedCommand::Verifying(asked)),
        Err(fault) => Err(fault),
    }
}

#[tactic(auto, unfolding(crate::specs::Words::verify_words))]
fn read_verify<'a>(alloc: Global, words: &'a [String]) -> Result<VerifyAsked<'a>, WordsFault>
    ensures { ReadsVerify (verify_words (map string_bytes words.now)) result }
{
    let mut given = GivenWords::new(alloc, Command::Verify);
    let place = take_words(&mut given, 2, words)?;
    given.finish_verify(place)
}

// What the words behind `settings` ask for.
fn read_showing<'a>(alloc: Global, words: &'a [String]) -> Result<AskedCommand<'a>, WordsFault>
    ensures { ReadsCommand (to_show (showing_words (map string_bytes words.now))) result }
{
    match read_settings(alloc, words) {
        Ok(options) => Ok(AskedCommand::Showing(options)),
        Err(fault) => Err(fault),
    }
}

#[tactic(auto, unfolding(crate::specs::Words::showing_words))]
fn read_settings(alloc: Global, words: &[String]) -> Result<Env, WordsFault>
    ensures { ReadsOptions (showing_words (map string_bytes words.now)) result }
{
    let mut given = GivenWords::new(alloc, Command::Settings);
    let place = take_words(&mut given, 2, words)?;
    given.finish_settings(place)
}

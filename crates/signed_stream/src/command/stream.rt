//! The words of `stream`.
ghost use Rattle.std.specs.Prelude.{◌≡◌};
ghost use Rattle.signed_stream.specs.Command.{no_stream_given, stream_words};
ghost use Rattle.signed_stream.specs.Options.{ReadsStream, stream_given};

use crate::command::option_words::{TakeOption, parse_moment};
use crate::command::profile::{ProfileOption, ProfileOptions};
use crate::form::Form;
use aws_auth::{HttpSignatureType, PayloadSigningOverride, SigningOptions};
use job_text::{WordsFault, parse_i64, parse_u64};
use smithy_core::Moment;
use std::alloc::Global;

/// What `stream` is asked for.
#[derive(Debug, Drop)]
pub struct StreamWords<'a> {
    /// The name of the service.
    pub name: &'a str,
    /// The moment of the request, of every event and of the closing frame, where the clock doesn't give them.
    pub at: Option<Moment>,
    /// How the request is signed.
    pub signing: SigningOptions,
    /// The name of the session token's header or parameter, where that isn't the usual one.
    pub token_name: Option<&'a str>,
    /// By how many milliseconds the service's clock is ahead.
    pub skew_millis: Option<i64>,
    /// In which form the output is written.
    pub form: Form,
    /// What is asked of profiles.
    pub profile: ProfileOptions<'a>,
}

/// An option of `stream` that has a value.
#[derive(Clone, Copy)]
pub enum StreamOption {
    Name,
    At,
    Expires,
    TokenName,
    Skew,
    OfProfile(ProfileOption),
}

/// What the options of `stream` so far gave.
#[derive(Drop)]
pub struct GivenStream<'a> {
    name: Option<&'a str>,
    at: Option<Moment>,
    signing: SigningOptions,
    token_name: Option<&'a str>,
    skew_millis: Option<i64>,
    form: Form,
    profile: ProfileOptions<'a>,
}

impl<'a> GivenStream<'a> {
    /// No options.
    pub fn new(alloc: Global) -> Self
        ensures { stream_given result ≡ no_stream_given }
    {
        GivenStream {
            name: None,
            at: None,
            signing: SigningOptions::default(),
            token_name: None,
            skew_millis: None,
            form: Form::HexLines,
            profile: ProfileOptions::new(alloc),
        }
    }

    /// What is asked, where the place after the last word is reached.
    pub fn finish(self, place: usize) -> Result<StreamWords<'a>, WordsFault>
        ensures { let given = stream_given self.entry in ReadsStream (stream_words place given) result }
    {
        match self.name {
            Some(name) => Ok(StreamWords {
                name,
                at: self.at,
                signing: self.signing,
                token_name: self.token_name,
                skew_millis: self.skew_millis,
                form: self.form,
                profile: self.profile,
            }),
            None => Err(WordsFault::BadWord(place)),
        }
    }
}

impl<'a> TakeOption<'a> for GivenStream<'a> {
    ghost use Rattle.std.specs.Prelude.{◌≡◌};
    ghost use Rattle.signed_stream.specs.Command.{StreamGiven, stream_option, stream_rules};
    ghost use Rattle.signed_stream.specs.Options.{stream_given};

    type Named = StreamOption;

    ghost Given = { StreamGiven };

    ghost given = { stream_given };

    ghost rules = { stream_rules };

    fn named(word: &str) -> Option<StreamOption>
        ensures { result ≡ stream_option word.now }
    {
        match word {
            "--name" => Some(StreamOption::Name),
            "--at" => Some(StreamOption::At),
            "--expires" => Some(StreamOption::Expires),
            "--token-name" => Some(StreamOption::TokenName),
            "--skew" => Some(StreamOption::Skew),
            _ => Some(StreamOption::OfProfile(ProfileOption::named(word)?)),
        }
    }

    fn stood(&self, option: StreamOption) -> bool {
        match option {
            StreamOption::Name => self.name.is_some(),
            StreamOption::At => self.at.is_some(),
            StreamOption::Expires => self.signing.expires_in.is_some(),
            StreamOption::TokenName => self.token_name.is_some(),
            StreamOption::Skew => self.skew_millis.is_some(),
            StreamOption::OfProfile(option) => self.profile.has(option) && !option.names_file(),
        }
    }

    fn take_value(
        &mut self,
        option: StreamOption,
        place: usize,
        value: &'a str,
    ) -> Result<(), WordsFault> {
        let bad = WordsFault::BadWord(place);
        match option {
            StreamOption::Name => self.name = Some(value),
            StreamOption::At => self.at = Some(parse_moment(value).ok_or(bad)?),
            StreamOption::Expires => self.signing.expires_in = Some(parse_u64(value).ok_or(bad)?),
            StreamOption::TokenName => self.token_name = Some(value),
            StreamOption::Skew => self.skew_millis = Some(parse_i64(value).ok_or(bad)?),
            StreamOption::OfProfile(option) => self.profile.take(option, value)?,
        }
        Ok(())
    }

    fn take_flag(&mut self, place: usize, word: &str) -> Result<(), WordsFault> {
        let signing = &mut self.signing;
        match word {
            "--query"
                if matches!(
                    signing.signature_type,
                    HttpSignatureType::HttpRequestHeaders
                ) => {
                signing.signature_type = HttpSignatureType::HttpRequestQueryParams;
            }
            "--omit-token" if !signing.omit_session_token => signing.omit_session_token = true,
            "--sha256" if !signing.content_sha256_header => signing.content_sha256_header = true,
            "--single-encode" if signing.double_uri_encode => signing.double_uri_encode = false,
            "--no-normalize" if signing.normalize_uri_path => signing.normalize_uri_path = false,
            "--unsigned" if signing.payload_override.is_none() => {
                signing.payload_override = Some(PayloadSigningOverride::UnsignedPayload);
            }
            "--raw" if self.form == Form::HexLines => self.form = Form::Raw,
            _ => return Err(WordsFault::BadWord(place)),
        }
        Ok(())
    }
}

//! What a caller lends.

/// A text.
#[repr(C)]
#[derive(Clone, Copy)]
pub struct Text<'a> {
    /// Its bytes.
    pub bytes: &'a [u8],
}

/// A name and a value: a header, or a variable.
#[repr(C)]
#[derive(Clone, Copy)]
pub struct Field<'a> {
    /// The name.
    pub name: &'a [u8],
    /// The value.
    pub value: &'a [u8],
}

/// A header of a message.
#[repr(C)]
#[derive(Clone, Copy)]
pub struct EventHeader<'a> {
    /// The name.
    pub name: &'a [u8],
    /// The kind of the value, as the event stream encoding numbers them: 0 true, 1 false, 2, 3, 4 and 5 a number of 8, 16, 32 and 64
    /// bits, 6 bytes, 7 a text, 8 a moment in milliseconds, 9 a UUID.
    pub kind: u32,
    /// The value, where it is a number or a moment.
    pub number: i64,
    /// The value, where it is bytes, a text or the 16 bytes of a UUID.
    pub value: &'a [u8],
}

/// Who signs, and for which region and service.
#[repr(C)]
#[derive(Clone, Copy)]
pub struct Signer<'a> {
    /// The access key id.
    pub key_id: &'a [u8],
    /// The secret access key.
    pub secret: &'a [u8],
    /// The session token; one of no bytes stands for none.
    pub token: &'a [u8],
    /// The region.
    pub region: &'a [u8],
    /// The service's name.
    pub service: &'a [u8],
}

/// A request.
#[repr(C)]
#[derive(Clone, Copy)]
pub struct Request<'a> {
    /// The method, as `GET`.
    pub method: &'a [u8],
    /// The target: an absolute URI, or a path with a query.
    pub target: &'a [u8],
    /// The headers in order.
    pub headers: &'a [Field<'a>],
    /// The body, or with the flag `PAYLOAD_TEXT` the payload's text.
    pub body: &'a [u8],
}

/// How a request is signed. All of it zero are the settings of a signature in headers.
#[repr(C)]
#[derive(Clone, Copy)]
pub struct Settings<'a> {
    /// The sum of some flags.
    pub flags: u32,
    /// For how many seconds a signature in the query is good; 0 stands for none.
    pub expires_in: u64,
    /// The name of the session token's header or parameter; one of no bytes stands for the usual one.
    pub token_name: &'a [u8],
    /// With the flag `EXCLUDED` the names of the headers that aren't signed, in lower case.
    pub excluded: &'a [Text<'a>],
}

/// A key that a service knows.
#[repr(C)]
#[derive(Clone, Copy)]
pub struct Key<'a> {
    /// The access key id.
    pub id: &'a [u8],
    /// The secret access key.
    pub secret: &'a [u8],
}

/// A service to which signed requests come.
#[repr(C)]
#[derive(Clone, Copy)]
pub struct Service<'a> {
    /// The region.
    pub region: &'a [u8],
    /// The service's name.
    pub name: &'a [u8],
    /// The sum of some of the flags `SINGLE_ENCODE`, `KEEP_PATH`, `SHA256_HEADER` and `UNSIGNED_TOKEN`.
    pub flags: u32,
    /// By how many seconds the date of a signature in headers may differ from the service's own, in either direction.
    pub skew: u32,
    /// For how many seconds a presigned target may be good.
    pub expiry: u32,
    /// The keys that it knows. Of keys of one id the first counts.
    pub keys: &'a [Key<'a>],
}

/// Where settings come from: the texts of the two profile files, and variables.
#[repr(C)]
#[derive(Clone, Copy)]
pub struct Sources<'a> {
    /// The text of the config file.
    pub config: &'a [u8],
    /// The text of the credentials file.
    pub credentials: &'a [u8],
    /// The variables. Of equal names the last one counts.
    pub variables: &'a [Field<'a>],
}

/// What the program gets: words, variables and files, what it reads, and the moment at which it runs.
#[repr(C)]
#[derive(Clone, Copy)]
pub struct Invocation<'a> {
    /// The words after the program's name.
    pub words: &'a [Text<'a>],
    /// The variables. Of equal names the last one counts.
    pub variables: &'a [Field<'a>],
    /// The files, each by its path and its bytes. Of equal paths the last one counts.
    pub files: &'a [Field<'a>],
    /// What it reads.
    pub input: &'a [u8],
    /// The moment, in seconds since 1970-01-01T00:00:00Z.
    pub seconds: i64,
}

/// The signature goes into the target's query.
pub(crate) const QUERY: u32 = 1;
/// The path is escaped once.
pub(crate) const SINGLE_ENCODE: u32 = 2;
/// The path isn't put into its normal form.
pub(crate) const KEEP_PATH: u32 = 4;
/// The payload's text goes into the header `x-amz-content-sha256`.
pub(crate) const SHA256_HEADER: u32 = 8;
/// The session token isn't signed. It goes out either way.
pub(crate) const UNSIGNED_TOKEN: u32 = 16;
/// What is given as body is the payload's text: a digest, or a word such as `UNSIGNED-PAYLOAD`.
pub(crate) const PAYLOAD_TEXT: u32 = 32;
/// The names of the headers that aren't signed are given.
pub(crate) const EXCLUDED: u32 = 64;

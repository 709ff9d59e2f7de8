const OVERVIEW: &str = "\
awsign signs HTTP requests by AWS Signature Version 4, and checks signed ones.

  awsign sign          prints a signed request, for curl or in another form
  awsign presign       prints a URL that carries its signature
  awsign verify        says who signed a request or a URL, or what is wrong
  awsign settings      says which key and region are used, and from where
  awsign chunk         writes a body in chunks, and prints the signed request
  awsign events        prints, writes and checks event stream frames

awsign COMMAND --help lists the words of a command, with an example.
awsign --version prints the version.

Key and region come from the options, then the variables AWS_ACCESS_KEY_ID,
AWS_SECRET_ACCESS_KEY, AWS_SESSION_TOKEN, AWS_REGION and AWS_DEFAULT_REGION,
then the profile. An empty variable counts as unset, and with --profile those
of the key don't count.

Exit status: 0, 1 nothing is signed, the request or the stream isn't good, or a
key or region is missing, 2 bad word, 3 a file, the input, the output or memory
failed, 141 whoever read the output left before its end
";

const SIGN: &str = "\
awsign sign METHOD URL [OPTION]..
Prints the signed request, as a config for curl if no other form is named.

  -H 'name: value'     a header, any number
  --data FILE          the body, of any size; - is standard input
  --payload-hash HEX   the SHA-256 of the body
  --payload-text TEXT  a text in place of the SHA-256
  --unsigned           a body that isn't signed; without these four it is empty
  --as FORM            curl (for curl -K -), headers, http (a head), json or url
  --encode-path        the path, up to a ?, is raw, and is percent-encoded
  --service NAME       else the one that an amazonaws.com host names
  --s3                 the service s3, and its settings
  --at SECONDS         the moment, since 1970-01-01T00:00:00Z, else the clock's
  --region NAME        else that of a variable or the profile
  --profile NAME       whose key is used, and not that of variables
  --config PATH        a config file; no default profile file is read then
  --credentials PATH   a credentials file, likewise

  awsign sign PUT https://bucket.s3.amazonaws.com/key --data FILE | curl -K -

Exit status: 0, 1 nothing is signed, 2 bad word, 3 a file, the input, the output
or memory failed, 141 whoever read the output left before its end
";

const PRESIGN: &str = "\
awsign presign METHOD URL --expires TIME [OPTION]..
Prints the URL with its signature, with which it is good for so long.

  --expires TIME       seconds, or a number with a unit: 90s, 10m, 12h or 7d
  --long               the time may be over 7 days, which AWS refuses
  -H 'name: value'     a header that goes with the URL, any number
  --data FILE          the body, of any size; - is standard input
  --payload-hash HEX   the SHA-256 of the body
  --payload-text TEXT  a text in place of the SHA-256
  --unsigned           a body that isn't signed; without these four it is empty,
                       for Amazon S3 unsigned
  --as FORM            url (if there is no other), curl, headers, http or json
  --encode-path        the path, up to a ?, is raw, and is percent-encoded
  --service NAME       else the one that an amazonaws.com host names
  --s3                 the service s3, and its settings
  --at SECONDS         the moment, since 1970-01-01T00:00:00Z, else the clock's
  --region NAME        else that of a variable or the profile
  --profile NAME       whose key is used, and not that of variables
  --config PATH        a config file; no default profile file is read then
  --credentials PATH   a credentials file, likewise

  awsign presign GET https://bucket.s3.amazonaws.com/key --expires 10m

Exit status: 0, 1 nothing is signed, 2 bad word, 3 a file, the input, the output
or memory failed, 141 whoever read the output left before its end
";

const VERIFY: &str = "\
awsign verify METHOD URL [OPTION]..
awsign verify [OPTION].. < REQUEST
Says who presigned the URL, or signed the request, which has head, empty line
and body as they go over the wire; or the first thing that is wrong.

  -H 'name: value'     a header that comes with the URL, any number
  --service NAME       else the one that an amazonaws.com host names
  --s3                 the service s3, and its settings
  --at SECONDS         the moment, since 1970-01-01T00:00:00Z, else the clock's
  --region NAME        else that of a variable or the profile
  --profile NAME       whose key is used, and not that of variables
  --config PATH        a config file; no default profile file is read then
  --credentials PATH   a credentials file, likewise

  awsign verify --s3 < REQUEST

Exit status: 0, 1 it isn't good, or no key, region or service is known, 2 bad
word, 3 a file, the input, the output or memory failed, 141 whoever read the
output left before its end
";

const SETTINGS: &str = "\
awsign settings [OPTION]..
Says which profile, key and region are used, and where each came from.

  --region NAME        else that of a variable or the profile
  --profile NAME       whose key is used, and not that of variables
  --config PATH        a config file; no default profile file is read then
  --credentials PATH   a credentials file, likewise

  awsign settings --profile work

Exit status: 0, 1 a key or a region is missing, or a profile file has a faulty
line, 2 bad word, 3 a file, the output or memory failed, 141 whoever read the
output left before its end
";

const CHUNK: &str = "\
awsign chunk METHOD URL --data FILE --out BODY [OPTION]..
Writes data in chunks to a file, and prints the signed request that goes before
them, as sign does.

  --data FILE          the data, under 4 GiB; - is standard input
  --out BODY           the file that gets the chunks
  --signed             signed chunks
  --size N             bytes of a chunk, else 65536
  --checksum NAME      crc32 or sha256 of the data, as a trailer
  --trailer 'name: value'  a trailer, any number
  -H 'name: value'     a header, any number
  --as FORM            curl (for curl -K -), headers, http (a head), json or url
  --encode-path        the path, up to a ?, is raw, and is percent-encoded
  --service NAME       else the one that an amazonaws.com host names
  --s3                 the service s3, and its settings
  --at SECONDS         the moment, since 1970-01-01T00:00:00Z, else the clock's
  --region NAME        else that of a variable or the profile
  --profile NAME       whose key is used, and not that of variables
  --config PATH        a config file; no default profile file is read then
  --credentials PATH   a credentials file, likewise

  awsign chunk PUT https://bucket.s3.amazonaws.com/key --data FILE --out BODY \\
    --signed --checksum crc32 | curl -K -

Exit status: 0, 1 nothing is signed, 2 bad word, 3 a file, the input, the output
or memory failed, 141 whoever read the output left before its end
";

const EVENTS: &str = "\
awsign events decode [OPTION].. < FRAMES     prints the events of frames
awsign events encode [OPTION].. < EVENTS     writes the frames of such events
awsign events verify --service NAME --seed HEX [OPTION].. < FRAMES
                                             prints those of signed frames

awsign events ACTION --help is about one of them alone.

  --hex                frames are lines of hexadecimal
  --raw                frames are bytes, as without either
  --as FORM            decode, verify: lines, or json (an object on a line)
  --seed HEX           verify: the signature of the request before the frames
  --service NAME       verify: the service's signing name
  --region NAME        verify: else that of a variable or the profile
  --profile NAME       verify: whose key is used, and not that of variables
  --config PATH        verify: a config file, and no default profile file
  --credentials PATH   verify: a credentials file, likewise

  awsign events decode < FRAMES | grep '^h :event-type'

Exit status: 0, 1 a frame or an event isn't good, or no key or region is known,
2 bad word, 3 a file, the input, the output or memory failed, 141 whoever read
the output left before its end
";

const DECODE: &str = "\
awsign events decode [OPTION].. < FRAMES
Prints the event of each frame as soon as it is there.

  --hex                frames are lines of hexadecimal
  --raw                frames are bytes, as without either
  --as FORM            lines (event, h NAME TYPE VALUE, payload HEX), or json

  awsign events decode < FRAMES | grep '^h :event-type'

Exit status: 0, 1 a frame isn't good, 2 bad word, 3 the input, the output or
memory failed, 141 whoever read the output left before its end
";

const ENCODE: &str = "\
awsign events encode [OPTION].. < EVENTS
Writes the frames of events, which are lines as decode prints them.

  --hex                frames are lines of hexadecimal
  --raw                frames are bytes, as without either

  awsign events encode < EVENTS > FRAMES

Exit status: 0, 1 a line or an event isn't good, 2 bad word, 3 the input, the
output or memory failed, 141 whoever read the output left before its end
";

const VERIFY_EVENTS: &str = "\
awsign events verify --service NAME --seed HEX [OPTION].. < FRAMES
Prints the event in each frame of a signed stream, once its signature and all
before it recompute.

  --seed HEX           the signature of the request before the frames
  --service NAME       the service's signing name
  --hex                frames are lines of hexadecimal
  --raw                frames are bytes, as without either
  --as FORM            lines (event, h NAME TYPE VALUE, payload HEX), or json
  --region NAME        else that of a variable or the profile
  --profile NAME       whose key is used, and not that of variables
  --config PATH        a config file; no default profile file is read then
  --credentials PATH   a credentials file, likewise

  awsign events verify --service transcribe --seed \"$SEED\" < FRAMES

Exit status: 0, 1 a frame isn't good, the closing one is missing, or no key or
region is known, 2 bad word, 3 a file, the input, the output or memory failed,
141 whoever read the output left before its end
";

const VERSION: &str = "awsign 0.1.0\n";

/// The text that the words ask for: the version, or the page of what stands before `--help`.
pub fn text_asked(words: &[String]) -> Option<&'static str> {
    match words {
        [command, word] if word.as_str() == "--help" => command_page(command.as_str()),
        [command, action, word] if command.as_str() == "events" && word.as_str() == "--help" => {
            events_page(action.as_str())
        }
        _ => program_start::text_asked(OVERVIEW, VERSION, words),
    }
}

fn command_page(command: &str) -> Option<&'static str> {
    match command {
        "sign" => Some(SIGN),
        "presign" => Some(PRESIGN),
        "verify" => Some(VERIFY),
        "settings" => Some(SETTINGS),
        "chunk" => Some(CHUNK),
        "events" => Some(EVENTS),
        _ => None,
    }
}

fn events_page(action: &str) -> Option<&'static str> {
    match action {
        "decode" => Some(DECODE),
        "encode" => Some(ENCODE),
        "verify" => Some(VERIFY_EVENTS),
        _ => None,
    }
}

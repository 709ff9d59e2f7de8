ghost use Rattle.std.specs.Prelude.{◌≡◌, map, option_copied};
ghost use Rattle.std.specs.String.{string_bytes};
ghost use Rattle.firuvaik.specs.Asked.{help, version};
ghost use Rattle.program_start.specs.Texts.{text_of_words};

const HELP: &str = "\
firuvaik signs requests and event streams by AWS Signature Version 4.

firuvaik stream --name NAME [--at N] [--skew MILLISECONDS] [--raw] [--sha256]
    [--query --expires SECONDS] [--token-name NAME] [--omit-token] [--unsigned]
    [--single-encode] [--no-normalize] [PROFILE]
  Signs a job, and writes the signed request and then a signed frame for each
  event, in hexadecimal; with --raw the frames alone, as bytes. NAME is the
  service's signing name. N is the moment of all signatures, in seconds since
  1970-01-01T00:00:00Z; without it each takes the clock's.
    firuvaik stream --name transcribe < job > written

firuvaik check --name NAME [PROFILE]
  Computes the signature of each frame that stream wrote again, behind a line
  record, and shows the events, or the first frame that doesn't hold. The
  request before the frames isn't checked: awsign verify checks requests.
    (grep ^c job; echo record; cat written) | firuvaik check --name transcribe

firuvaik watch --name NAME --seed HEX [PROFILE]
  Reads the signed frames of a stream as bytes while they come, and shows each
  event once its signature was computed again. HEX is the signature before the
  first frame: that of the request.
    firuvaik watch --name transcribe --seed HEX < frames

firuvaik settings [PROFILE]
  Shows the profile, the region, the key id and whether there is a token.
    AWS_PROFILE=night firuvaik settings < /dev/null

firuvaik chunk [--size N] [--trailer NAME VALUE]..
  Writes its input in the encoding aws-chunked: chunks of N bytes, or of 65536,
  and then the trailers.
    firuvaik chunk --trailer x-amz-meta-origin a < data

firuvaik gen SEED COUNT
  Streams COUNT generated events in memory, checks the stream and measures it.
    firuvaik gen 7 1000

PROFILE is [--service-id ID] [--config PATH] [--credentials PATH]; in stream the
last two repeat. Named files and lines of them in the input are read in place of
~/.aws/config and ~/.aws/credentials, or where AWS_CONFIG_FILE and
AWS_SHARED_CREDENTIALS_FILE say. Of these one that is missing, can't be read,
isn't UTF-8 or has over 16 MiB counts as empty, without a word. AWS_PROFILE and
AWS_REGION come before.

All but gen read standard input to its end; at a terminal Control-D ends it.
watch ends at the first frame that doesn't hold.

A job has these lines; the input of settings has config and credentials alone:
  method METHOD, target TARGET     once each
  header NAME: VALUE               any number
  body HEX                         at most once
  config TEXT, credentials TEXT    any number, a line of a profile file each
  event                            begins an event; the lines above stand before
  h NAME KIND VALUE                a header of the event
  payload HEX                      at most once an event

Exit status, 0 or with its line on standard error; N is a word or line, from 1:
  2 bad word N    3 input over 67108864 bytes    4 bad line N    5 read fault
  6 could not read file PATH    7 refused CODE NAME
  8 check failed at frame N PART    9 output fault    10 no memory
";

const VERSION: &str = "firuvaik 0.1.0\n";

/// The text that a single word asks for.
pub fn text_asked(words: &[String]) -> Option<&'static str>
    ensures { option_copied result ≡ text_of_words help version (map string_bytes words.now) }
{
    program_start::text_asked(HELP, VERSION, words)
}

ghost use Rattle.std.specs.Prelude.{◌≡◌, map, option_copied};
ghost use Rattle.std.specs.String.{string_bytes};
ghost use Rattle.operation.specs.Asked.{operation_help, operation_version};
ghost use Rattle.program_start.specs.Texts.{text_of_words};

const HELP: &str = "\
operation shows what an operation sends, attempt by attempt, over listed replies.

operation --name NAME --at N [PROFILE]
  Signs a job's request anew for each attempt, and writes the requests that are
  sent and how many attempts were made. NAME is the service's signing name. N is
  the moment of all signatures, in seconds since 1970-01-01T00:00:00Z.
    operation --name service --at 1440938160 < job

PROFILE is [--service-id ID] [--config PATH] [--credentials PATH]. Named files and
lines of them in the input are read in place of ~/.aws/config and
~/.aws/credentials, or where AWS_CONFIG_FILE and AWS_SHARED_CREDENTIALS_FILE say.
Of these one that is missing, can't be read, isn't UTF-8 or has over 16 MiB counts
as empty, without a word. AWS_PROFILE and AWS_REGION come before.

Standard input is read to its end; at a terminal Control-D ends it. A job has
these lines:
  method METHOD, target TARGET     once each
  header NAME: VALUE               any number
  body HEX                         at most once
  config TEXT, credentials TEXT    any number, a line of a profile file each
  reply STATUS CODE [DATE]         one or more, behind the others: what the
                                   service answers; - is no error's code

Exit status, 0 or with its line on standard error; N is a word or line, from 1:
  2 bad word N    3 input over 67108864 bytes    4 bad line N    5 read fault
  6 could not read file PATH    7 refused CODE NAME    9 output fault
  10 no memory    12 transport fault
";

const VERSION: &str = "operation 0.1.0\n";

/// The text that a single word asks for.
pub fn text_asked(words: &[String]) -> Option<&'static str>
    ensures { option_copied result ≡ text_of_words operation_help operation_version (map string_bytes words.now) }
{
    program_start::text_asked(HELP, VERSION, words)
}

ghost use Rattle.std.specs.Prelude.{◌≡◌, ℕ, List, All};
ghost use Rattle.smithy_core.specs.Moment.{Instant};
ghost use Rattle.eventstream.specs.Laws.{IsProper};
ghost use Rattle.eventstream.specs.Link.{chain};
ghost use Rattle.env_config.specs.Sections.{FileText};
ghost use Rattle.sigv4.specs.Signed.{signature_of};
ghost use Rattle.signed_stream.specs.Command.{Wanted};
ghost use Rattle.job_text.specs.Job.{JobParts};
ghost use Rattle.signed_stream.specs.Laws.{AcceptsEvents, ReadsEvents};
ghost use Rattle.signed_stream.specs.Plan.{TargetRead};
ghost use Rattle.signed_stream.specs.Stream.{IsValid, valid_case, written_valid};
ghost use Rattle.signed_stream.specs.declared.form.Form.TheVariants.{Raw};

use chain_watch::written_chains_are_accepted;
use event_io::chains_read_back;

/// What `sign_and_stream` wrote in raw form is read, in whatever pieces it comes to a receiver, as the messages of the chain, one
/// for each event and an empty one last, and nothing else.
pub fn raw_streams_read_back()
    ensures { (files : List FileText) (profile : List ℕ) (env : List (List ℕ × List ℕ)) (wanted : Wanted) (j : JobParts) (target : TargetRead) (moments : List Instant)
        (input : IsValid files profile env wanted j target moments) → wanted.form ≡ Raw → All IsProper j.events
        → ReadsEvents (chain (valid_case input).signer j.events input.others (signature_of (valid_case input))) j.events (written_valid input) }
{
    chains_read_back();
}

/// What `sign_and_stream` wrote in raw form is accepted by `check_chain` over the signature of the request: each event
/// comes back.
pub fn raw_streams_are_accepted()
    ensures { (files : List FileText) (profile : List ℕ) (env : List (List ℕ × List ℕ)) (wanted : Wanted) (j : JobParts) (target : TargetRead) (moments : List Instant)
        (input : IsValid files profile env wanted j target moments) → wanted.form ≡ Raw → All IsProper j.events
        → AcceptsEvents (valid_case input).signer (signature_of (valid_case input)) j.events (written_valid input) }
{
    written_chains_are_accepted();
}

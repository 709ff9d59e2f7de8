//! A chain of frames, whose events are printed once their signatures were computed again.
ghost use Rattle.std.specs.Prelude.{◌≡◌, ◌+◌, ◌^◌, ◌<◌, ◌≤◌, ◌++◌, ℕ, List, Option, OnOk, IfOk, IsErrOf, length, map};
ghost use Rattle.std.specs.String.{string_bytes};
ghost use Rattle.smithy_core.specs.Message.{Parts};
ghost use Rattle.smithy_core.specs.Outside.{CountsFault, IsAtEnd};
ghost use Rattle.eventstream.specs.Key.{Signer as ChainSigner};
ghost use Rattle.chain_watch.specs.Walk.{seed_point, walk};
ghost use Rattle.env_config.specs.Loading.{Loaded, StopsAtFile};
ghost use Rattle.env_config.specs.Source.{file_of};
ghost use Rattle.awsign_words.specs.EventWords.{asked_event_form};
ghost use Rattle.awsign_run.specs.Chosen.{asked_profile, signs_for_of, who_signs};
ghost use Rattle.awsign_run.specs.Run.{asked_places};
ghost use Rattle.awsign_events.specs.VerifyEvents.{EndsVerifying, IsNewVerifier, IsVerified, PrintsAll, PrintsUpTo, RanVerifying, ReadsVerified, VerifiesBy, VerifiesChain, VerifiesTaken, asked_seed, chain_signer};

use crate::decode::{MOST_PIECE, write_message};
use crate::status::EventsStatus;
use awsign_run::{Chosen, Status, load_source, signer_for};
use awsign_words::{EventForm, EventsAsked};
use bytes::Bytes;
use chain_watch::ChainWatch;
use env_config::Source;
use smithy_core::{ByteSink, ByteSource, Disk, Env, Mem, Message};
use std::alloc::Global;

/// So many bytes may have been taken before another piece is read.
const MOST_TAKEN: u64 = 18_446_744_073_709_543_423;

// The watch of the chain, and the place of the next event.
#[derive(Drop)]
struct Verifier {
    watch: ChainWatch,
    place: u64,
}

/// Prints the event of each frame of a chain as soon as the frame is there whole and its signature was computed again, over the one before
/// it, the first over the seed that an option gives: as [`decode_events`](crate::decode_events) does, and no event before. Options, variables
/// and profile files give the key and the region. It keeps less than a frame and a piece of 8,192 bytes.
///
/// [`EventsStatus::Unverified`] says which frame isn't one of the chain, and why, or that the closing frame is missing. What was printed
/// stays, and was signed. The first test that fails ends the run, in this order: a profile file that an option names, the lines of profile
/// files, the key, the region, the service, and then each piece of the input; behind 2^64 - 8,193 bytes the input counts as failed.
pub fn verify_events<S: ByteSource, D: Disk, K: ByteSink>(
    alloc: Global,
    asked: &EventsAsked,
    env: &Env,
    input: &mut S,
    disk: &mut D,
    out: &mut K,
) -> EventsStatus
    // What was printed is the texts of the first events of the walk over the seed of the bytes taken, and this is what comes behind them; or why nothing was.
    ensures headline { RanVerifying (Loaded D.answers D.faults (D.files disk.old) env.now (asked_places asked.now.options) disk.old disk.new)
        (StopsAtFile D.answers D.faults (D.files disk.old) env.now (asked_places asked.now.options) disk.old disk.new)
        asked.now.options env.now (S.left input.old) (S.left input.new) result (K.held out.old) (K.held out.new) }

    // No file changed, and no count fell.
    ensures outside { (D.files disk.new ≡ D.files disk.old) × (D.faults disk.old ≤ D.faults disk.new) × (S.faults input.old ≤ S.faults input.new) }

    // It answers that the output failed exactly where that counted a fault.
    ensures failed { CountsFault (result ≡ EventsStatus.Ended Status.OutputFault) (K.faults out.old) (K.faults out.new) }
{
    match load_source(alloc, env, disk, &asked.options) {
        Ok(source) => verify_by_files(alloc, asked, env, &source, input, out),
        Err(fault) => EventsStatus::from(fault),
    }
}

// Verifies with the texts of profile files.
fn verify_by_files<S: ByteSource, K: ByteSink>(
    alloc: Global,
    asked: &EventsAsked,
    env: &Env,
    source: &Source,
    input: &mut S,
    out: &mut K,
) -> EventsStatus
    requires { string_bytes source.now.profile ≡ asked_profile asked.now.options env.now }
    ensures verifies { VerifiesBy asked.now.options (chain_signer asked.now.options env.now (map file_of source.now.files.items))
        (S.left input.old) (S.left input.new) result (K.held out.old) (K.held out.new) }
    ensures count { S.faults input.old ≤ S.faults input.new }
    ensures failed { CountsFault (result ≡ EventsStatus.Ended Status.OutputFault) (K.faults out.old) (K.faults out.new) }
{
    match signer_for(alloc, &asked.options, "", env, source) {
        Ok(signer) => verify_chain(alloc, asked, &signer, input, out),
        Err(fault) => EventsStatus::from(fault),
    }
}

// Verifies a chain of a signer.
fn verify_chain<S: ByteSource, K: ByteSink>(
    alloc: Global,
    asked: &EventsAsked,
    signer: &Chosen,
    input: &mut S,
    out: &mut K,
) -> EventsStatus
    ensures verifies { VerifiesChain (asked_event_form asked.now.options) (who_signs (signs_for_of signer.now)) (asked_seed asked.now.options)
        (S.left input.old) (S.left input.new) result (K.held out.old) (K.held out.new) }
    ensures count { S.faults input.old ≤ S.faults input.new }
    ensures failed { CountsFault (result ≡ EventsStatus.Ended Status.OutputFault) (K.faults out.old) (K.faults out.new) }
{
    let Ok(mut verifier) = Verifier::new(alloc, seed_asked(&asked.options), signer) else {
        return EventsStatus::Ended(Status::NoMemory);
    };
    match verifier.read(alloc, asked.form(), input, out) {
        Ok(()) => verifier.finish(alloc),
        Err(status) => status,
    }
}

// The seed that an option gives.
fn seed_asked(options: &Env) -> &str
    ensures { result.now ≡ asked_seed options.now }
{
    match options.get("--seed") {
        Some(seed) => seed,
        None => "",
    }
}

impl Verifier {
    // Nothing was read.
    fn new(alloc: Global, seed: &str, signer: &Chosen) -> Mem<Verifier>
        ensures { IfOk result (λ verifier. IsNewVerifier (who_signs (signs_for_of signer.now)) seed.now verifier) }
    {
        let secret = signer.credentials.secret_access_key();
        let (region, service) = (signer.region.as_str(), signer.service.as_str());
        Ok(Verifier {
            watch: ChainWatch::new(alloc, seed, secret, region, service)?,
            place: 1,
        })
    }

    // Reads the input to its end, and prints the events that pass.
    fn read<S: ByteSource, K: ByteSink>(
        &mut self,
        alloc: Global,
        form: EventForm,
        input: &mut S,
        out: &mut K,
    ) -> Result<(), EventsStatus>
        ensures reads { (signer : ChainSigner) (seed : List ℕ) → IsNewVerifier signer seed self.old
            → ReadsVerified form signer seed (S.left input.old) (S.left input.new) self.new (K.held out.old) (K.held out.new) result }
        ensures count { S.faults input.old ≤ S.faults input.new }
        ensures failed { CountsFault (IsErrOf result (EventsStatus.Ended Status.OutputFault)) (K.faults out.old) (K.faults out.new) }
    {
        let mut piece = [0u8; MOST_PIECE];
        'pieces: while self.watch.fed() < MOST_TAKEN {
            match input.read(&mut piece) {
                Ok(0) => return Ok(()),
                Ok(n) => self.take(alloc, form, &piece[..n], out)?,
                Err(_) => return Err(EventsStatus::InputFault),
            }
        }
        Err(EventsStatus::InputFault)
    }

    // Takes a piece, and prints the events that it completes; a fault that it holds ends the run behind them.
    fn take<K: ByteSink>(
        &mut self,
        alloc: Global,
        form: EventForm,
        piece: &[u8],
        out: &mut K,
    ) -> Result<(), EventsStatus>
        requires { self.old.watch.fed + length piece.now < 2 ^ 64 }
        ensures takes { (signer : ChainSigner) (seed taken : List ℕ) (before : Option (List ℕ)) → IsVerified form signer seed taken self.old before (K.held out.old)
            → VerifiesTaken form signer seed (taken ++ piece.now) self.new before (K.held out.new) result }
        ensures fed { OnOk result (self.new.watch.fed ≡ self.old.watch.fed + length piece.now) }
        ensures failed { CountsFault (IsErrOf result (EventsStatus.Ended Status.OutputFault)) (K.faults out.old) (K.faults out.new) }
    {
        let mut events = Vec::new(alloc);
        let piece = Bytes::copy_from_slice(alloc, piece)?;
        let watched = self.watch.feed(piece, &mut events);
        self.place = print_events(alloc, form, self.place, events.as_slice(), out)?;
        match watched {
            Ok(_) => Ok(()),
            Err(fault) => Err(EventsStatus::from(fault)),
        }
    }

    // How the input ends behind the bytes that were taken, which are verified.
    fn finish(self, alloc: Global) -> EventsStatus
        ensures ends { (form : EventForm) (signer : ChainSigner) (seed taken : List ℕ) (left before now : Option (List ℕ)) → IsAtEnd left
            → IsVerified form signer seed taken self before now → EndsVerifying form (walk signer (seed_point seed) taken) left result before now }
        ensures unfailed { result ≡ EventsStatus.Ended Status.OutputFault → ⊥ }
    {
        match self.watch.finish(&mut Vec::new(alloc)) {
            Ok(()) => EventsStatus::Ended(Status::Done),
            Err(fault) => EventsStatus::from(fault),
        }
    }
}

// Prints events, the first of which has this place, and returns the place behind them.
fn print_events<K: ByteSink>(
    alloc: Global,
    form: EventForm,
    place: u64,
    events: &[Message],
    out: &mut K,
) -> Result<u64, EventsStatus>
    ensures prints { (first : List Parts) (before : Option (List ℕ)) → PrintsUpTo form first place before (K.held out.old)
        → PrintsAll form (first ++ events.now) before (K.held out.new) result }
    ensures failed { CountsFault (IsErrOf result (EventsStatus.Ended Status.OutputFault)) (K.faults out.old) (K.faults out.new) }
{
    let mut next = place;
    'events: for event in events {
        write_message(alloc, form, next, event, out)?;
        next = next.saturating_add(1);
    }
    Ok(next)
}

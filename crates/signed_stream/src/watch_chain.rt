//! The command `watch`.
ghost use Rattle.std.specs.Prelude.{◌≡◌, [], IfOk, OnOk, map};
ghost use Rattle.std.specs.String.{string_bytes};
ghost use Rattle.smithy_core.specs.Outside.{CountsFault};
ghost use Rattle.chain_watch.specs.declared.chain_fault.ChainFault.TheVariants.{NoMemory};
ghost use Rattle.signed_stream.specs.Counts.{CountsStep};
ghost use Rattle.signed_stream.specs.Effects.{ReadsAndWrites};
ghost use Rattle.signed_stream.specs.Plan.{unreadable};
ghost use Rattle.signed_stream.specs.Settings.{selected_in};
ghost use Rattle.signed_stream.specs.Sources.{DiskGives};
ghost use Rattle.signed_stream.specs.Status.{ending_of, output_fault, read_fault};
ghost use Rattle.signed_stream.specs.WatchChain.{EndsInput, IsFit, IsIdle, IsUnfed, NamesUnread, ReadsInput, ShowsWaiting, TakesNext, UnlessRead, WalksWaiting, Watches, WatchesInput, WatchesWords, watch_signer};
ghost use Rattle.signed_stream.specs.WatchWords.{read_after_watch, watch_wanted};

use crate::command::{WatchWords, read_watch};
use crate::event_lines::{write_count, write_lines};
use crate::running::MOST_INPUT;
use crate::settings::Settings;
use crate::sources::select;
use crate::status::{CheckFault, Status, status_of};
use bytes::Bytes;
use chain_watch::{ChainFault, ChainWatch};
use job_text::{ProfileTexts, WordsFault};
use smithy_core::{ByteSink, ByteSource, Disk, Env, Mem, Message};
use std::alloc::{AllocError, Global};
use std::mem;

/// The most bytes of one read.
const MOST_PIECE: usize = 8_192;

/// Checks the chain that the input is while it comes, and writes the frame of each event as soon as it has passed: the words
/// behind `watch` give the seed and the name, and the files and variables who signs.
pub fn watch<S: ByteSource, D: Disk, K: ByteSink>(
    alloc: Global,
    words: &[String],
    env: &Env,
    input: &mut S,
    disk: &mut D,
    out: &mut K,
) -> Status
    ensures watches { WatchesWords (DiskGives D.answers D.faults (D.files disk.old) env.now disk.old disk.new) env.now (read_after_watch (map string_bytes words.now))
        (S.left input.old) (S.left input.new) (ending_of result) (K.held out.old) (K.held out.new) }
    ensures unasked { UnlessRead (read_after_watch (map string_bytes words.now)) (disk.new ≡ disk.old) }
    ensures reads { CountsFault (ending_of result ≡ read_fault) (S.faults input.old) (S.faults input.new) }
    ensures effects { ReadsAndWrites (NamesUnread (DiskGives D.answers D.faults (D.files disk.old) env.now disk.old disk.new) (read_after_watch (map string_bytes words.now)))
        (ending_of result) D.Disk disk.old disk.new (K.faults out.old) (K.faults out.new) }
{
    match read_watch(alloc, words) {
        Ok(words) => watch_wanted(alloc, words, env, input, disk, out),
        Err(WordsFault::BadWord(place)) => Status::BadWords(place),
        Err(WordsFault::NoMemory) => Status::NoMemory,
    }
}

// Checks the chain under what the files give that the words name.
fn watch_wanted<S: ByteSource, D: Disk, K: ByteSink>(
    alloc: Global,
    words: WatchWords<'_>,
    env: &Env,
    input: &mut S,
    disk: &mut D,
    out: &mut K,
) -> Status
    ensures watches { WatchesInput (DiskGives D.answers D.faults (D.files disk.old) env.now disk.old disk.new) env.now (watch_wanted words.entry)
        (S.left input.old) (S.left input.new) (ending_of result) (K.held out.old) (K.held out.new) }
    ensures reads { CountsFault (ending_of result ≡ read_fault) (S.faults input.old) (S.faults input.new) }
    ensures effects { ReadsAndWrites (λ path. DiskGives D.answers D.faults (D.files disk.old) env.now disk.old disk.new (watch_wanted words.entry).profile.files (unreadable path))
        (ending_of result) D.Disk disk.old disk.new (K.faults out.old) (K.faults out.new) }
{
    match select(alloc, env, disk, &words.profile, ProfileTexts::new()) {
        Ok(settings) => watch_selected(alloc, &words, &settings, input, out),
        Err(fault) => Status::from(fault),
    }
}

// Checks the chain under what is selected.
fn watch_selected<S: ByteSource, K: ByteSink>(
    alloc: Global,
    words: &WatchWords<'_>,
    settings: &Settings,
    input: &mut S,
    out: &mut K,
) -> Status
    ensures watches { Watches (watch_signer (watch_wanted words.now) (selected_in settings.now)) words.now.seed.now (S.left input.old) (S.left input.new)
        (ending_of result) (K.held out.old) (K.held out.new) }
    ensures reads { CountsFault (ending_of result ≡ read_fault) (S.faults input.old) (S.faults input.new) }
    ensures writes { CountsFault (ending_of result ≡ output_fault) (K.faults out.old) (K.faults out.new) }
{
    let secret = settings.credentials.secret_access_key();
    let region = settings.region.as_str();
    let Ok(watch) = ChainWatch::new(alloc, words.seed, secret, region, words.name) else {
        return Status::NoMemory;
    };
    let mut progress = Progress::new(alloc, watch);
    match progress.read(alloc, input, out) {
        Ok(()) => progress.finish(alloc, out),
        Err(status) => status,
    }
}

// How far the input is checked: the watch, the bytes that wait until they may make up a frame, since a piece of a few
// bytes would cost the watch more than they are, and how many events were written.
#[derive(Drop)]
struct Progress {
    watch: ChainWatch,
    waiting: Vec<u8>,
    shown: usize,
}

impl Progress {
    // Nothing was read.
    fn new(alloc: Global, watch: ChainWatch) -> Progress
        ensures watch { result.watch ≡ watch }
        ensures waiting { result.waiting.items ≡ [] }
        ensures shown { result.shown ≡ 0 }
    {
        Progress {
            watch,
            waiting: Vec::new(alloc),
            shown: 0,
        }
    }

    // Reads the input to its end, and writes the events that pass.
    fn read<S: ByteSource, K: ByteSink>(
        &mut self,
        alloc: Global,
        input: &mut S,
        out: &mut K,
    ) -> Result<(), Status>
        requires begins { IsUnfed self.old }
        requires fits { IsFit self.old }
        ensures reads { ReadsInput self.old (S.left input.old) (S.left input.new) self.new (K.held out.old) (K.held out.new) result }
        ensures fit { OnOk result (IsFit self.new) }
        ensures counts { CountsStep read_fault result (S.faults input.old) (S.faults input.new) }
        ensures writes { CountsStep output_fault result (K.faults out.old) (K.faults out.new) }
    {
        let mut piece = [0u8; MOST_PIECE];
        'pieces: loop {
            match input.read(&mut piece) {
                Ok(0) => return self.show_waiting(alloc, out),
                Ok(n) => self.take(alloc, &piece[..n], out)?,
                // No event and no fault is in the bytes that wait.
                Err(_) => return Err(Status::ReadFault),
            }
        }
    }

    // Takes a piece, and writes the events that it completes.
    #[tactic(auto, using(crate::proofs::WaitLemmas::idle_few))]
    fn take<K: ByteSink>(&mut self, alloc: Global, piece: &[u8], out: &mut K) -> Result<(), Status>
        requires { IsFit self.old }
        ensures takes { TakesNext self.old piece.now self.new (K.held out.old) (K.held out.new) result }
        ensures fit { OnOk result (IsFit self.new) }
        ensures idle { OnOk result (IsIdle self.new) }
        ensures writes { CountsStep output_fault result (K.faults out.old) (K.faults out.new) }
    {
        let room = MOST_INPUT - self.watch.fed() as usize - self.waiting.len();
        if piece.len() > room {
            self.waiting.extend_from_slice(&piece[..room])?;
            self.show_waiting(alloc, out)?;
            return Err(Status::JobTooLarge);
        }
        self.waiting.extend_from_slice(piece)?;
        if self.waiting.len() < self.watch.wanted() {
            return Ok(());
        }
        self.show_waiting(alloc, out)
    }

    // Hands the bytes that wait to the watch, and writes the events that they complete.
    #[tactic(auto, using(crate::proofs::WaitLemmas::idle_none))]
    fn show_waiting<K: ByteSink>(&mut self, alloc: Global, out: &mut K) -> Result<(), Status>
        requires { IsFit self.old }
        ensures shows { ShowsWaiting self.old self.new (K.held out.old) (K.held out.new) result }
        ensures fit { OnOk result (IsFit self.new) }
        ensures idle { OnOk result (IsIdle self.new) }
        ensures writes { CountsStep output_fault result (K.faults out.old) (K.faults out.new) }
    {
        let mut events = Vec::new(alloc);
        let fault = self.feed_waiting(alloc, &mut events)?;
        write_lines(alloc, events.as_slice(), out)?;
        match fault {
            Some(fault) => Err(Status::CheckFailed(CheckFault::Chain(fault))),
            None => {
                self.shown += events.len();
                Ok(())
            }
        }
    }

    // Hands the bytes that wait to the watch, which hands out the events that they complete, and then the fault that they
    // hold, where there is one.
    fn feed_waiting(&mut self, alloc: Global, events: &mut Vec<Message>) -> Mem<Option<ChainFault>>
        requires fits { IsFit self.old }
        requires none { events.old.items ≡ [] }
        ensures { IfOk result (λ fault. WalksWaiting self.old self.new events.new.items fault) }
    {
        let piece = self.take_waiting(alloc)?;
        match self.watch.feed(piece, events) {
            Ok(_) => Ok(None),
            Err(fault) => Ok(Some(lasting(fault)?)),
        }
    }

    // The bytes that wait, none of which waits any more.
    fn take_waiting(&mut self, alloc: Global) -> Mem<Bytes>
        ensures piece { IfOk result (λ piece. piece ≡ self.old.waiting.items) }
        ensures none { OnOk result (self.new.waiting.items ≡ []) }
        ensures others { (self.new.watch ≡ self.old.watch) × (self.new.shown ≡ self.old.shown) }
    {
        Ok(Bytes::from_vec(mem::replace(&mut self.waiting, Vec::new(alloc)))?)
    }

    // Ends the chain behind the bytes that were read, and writes how many events it has.
    fn finish<K: ByteSink>(self, alloc: Global, out: &mut K) -> Status
        requires { IsFit self }
        ensures ends { EndsInput self (ending_of result) (K.held out.old) (K.held out.new) }
        ensures writes { CountsFault (ending_of result ≡ output_fault) (K.faults out.old) (K.faults out.new) }
    {
        let Progress { watch, shown, .. } = self;
        match watch.finish(&mut Vec::new(alloc)) {
            Ok(()) => status_of(write_count(alloc, shown, out)),
            Err(fault) => Status::from(fault),
        }
    }
}

// A fault of the chain, which stays whatever memory there is.
fn lasting(fault: ChainFault) -> Mem<ChainFault>
    ensures { IfOk result (λ kept. (kept ≡ fault) × (kept ≡ NoMemory → ⊥)) }
{
    match fault {
        ChainFault::NoMemory => Err(AllocError),
        ChainFault::NotChain { .. } | ChainFault::Mismatch { .. } => Ok(fault),
    }
}

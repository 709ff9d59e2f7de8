//! Frames, printed as they come.
ghost use Rattle.std.specs.Prelude.{◌≡◌, ◌<◌, ◌≤◌, ◌++◌, [], ℕ, List, Option, Ok, OnOk, IsErrOf, true, false, length};
ghost use Rattle.smithy_core.specs.Outside.{CountsFault, IsAtEnd};
ghost use Rattle.eventstream.specs.Frame.{most_frame};
ghost use Rattle.awsign_words.specs.declared.events.EventForm.{EventForm as Form};
ghost use Rattle.awsign_events.specs.Decode.{DecodesInput, EndsDecodingAs, ReadsFrames, ShowsWhole, ShowsOne, ShowsUpTo, WaitsUnfinished, WritesMessage, wrong_frame};

use crate::status::EventsStatus;
use crate::text::{is_spelled, message_text};
use awsign_run::Status;
use awsign_words::EventForm;
use eventstream::{Error, ErrorKind, peek_message};
use seg_buf::SegBuf;
use smithy_core::{ByteSink, ByteSource, Message, write_all};
use std::alloc::Global;

/// The most bytes of one read.
pub(crate) const MOST_PIECE: usize = 8_192;

// The bytes that wait for the rest of their frame, and its place.
#[derive(Drop)]
struct Frames {
    waiting: SegBuf,
    place: u64,
}

/// Prints the message of each frame of an input as soon as the frame is there. It keeps less than a frame and a piece of 8,192 bytes,
/// however long the input is.
///
/// What was printed stays where a frame is wrong, a form can't spell its message, or the input ends within it. After 2^64 - 1 reads the
/// input counts as failed.
pub fn decode_events<S: ByteSource, K: ByteSink>(
    alloc: Global,
    form: EventForm,
    input: &mut S,
    out: &mut K,
) -> EventsStatus
    // What was printed is the texts of the messages of the frames that the bytes taken begin with, and this is what comes behind them.
    ensures headline { DecodesInput form (S.left input.old) (S.left input.new) result (K.held out.old) (K.held out.new) }

    // No count fell.
    ensures outside { (S.faults input.old ≤ S.faults input.new) × (K.faults out.old ≤ K.faults out.new) }

    // It answers that the output failed exactly where that counted a fault.
    ensures failed { CountsFault (result ≡ EventsStatus.Ended Status.OutputFault) (K.faults out.old) (K.faults out.new) }
{
    let mut frames = Frames::new(alloc);
    match frames.read(alloc, form, input, out) {
        Ok(()) => EventsStatus::Ended(Status::Done),
        Err(status) => status,
    }
}

impl Frames {
    // Nothing was read.
    fn new(alloc: Global) -> Frames
        ensures none { result.waiting.bytes ≡ [] }
        ensures first { result.place ≡ 1 }
    {
        Frames {
            waiting: SegBuf::new(alloc),
            place: 1,
        }
    }

    // Reads the input to its end, and prints the messages of its frames.
    fn read<S: ByteSource, K: ByteSink>(
        &mut self,
        alloc: Global,
        form: EventForm,
        input: &mut S,
        out: &mut K,
    ) -> Result<(), EventsStatus>
        requires none { self.old.waiting.bytes ≡ [] }
        requires first { self.old.place ≡ 1 }
        ensures reads { ReadsFrames form (S.left input.old) (S.left input.new) (K.held out.old) (K.held out.new) result }
        ensures count { S.faults input.old ≤ S.faults input.new }
        ensures failed { CountsFault (IsErrOf result (EventsStatus.Ended Status.OutputFault)) (K.faults out.old) (K.faults out.new) }
    {
        let mut piece = [0u8; MOST_PIECE];
        'pieces: for _ in 0..u64::MAX {
            match input.read(&mut piece) {
                Ok(0) => return self.end(),
                Ok(n) => self.show(alloc, form, &piece[..n], out)?,
                Err(_) => return Err(EventsStatus::InputFault),
            }
        }
        Err(EventsStatus::InputFault)
    }

    // Takes a piece, and prints the messages of the frames that are there whole then.
    fn show<K: ByteSink>(
        &mut self,
        alloc: Global,
        form: EventForm,
        piece: &[u8],
        out: &mut K,
    ) -> Result<(), EventsStatus>
        requires few { length self.old.waiting.bytes < most_frame }
        requires short { length piece.now ≤ 8192 }
        ensures shows { (taken : List ℕ) (before : Option (List ℕ)) → ShowsUpTo form taken self.old before (K.held out.old)
            → ShowsWhole form (taken ++ piece.now) self.new before (K.held out.new) result }
        ensures few { OnOk result (length self.new.waiting.bytes < most_frame) }
        ensures failed { CountsFault (IsErrOf result (EventsStatus.Ended Status.OutputFault)) (K.faults out.old) (K.faults out.new) }
    {
        self.waiting.push_slice(piece)?;
        'frames: while self.show_front(alloc, form, out)? {}
        Ok(())
    }

    // Prints the message of the first frame, where it is there whole, and returns whether it is.
    fn show_front<K: ByteSink>(
        &mut self,
        alloc: Global,
        form: EventForm,
        out: &mut K,
    ) -> Result<bool, EventsStatus>
        ensures shows { (taken : List ℕ) (before : Option (List ℕ)) → ShowsUpTo form taken self.old before (K.held out.old)
            → ShowsOne form taken self.new before (K.held out.new) result }
        ensures shorter { result ≡ Ok true → length self.new.waiting.bytes < length self.old.waiting.bytes }
        ensures few { result ≡ Ok false → length self.new.waiting.bytes < most_frame }
        ensures failed { CountsFault (IsErrOf result (EventsStatus.Ended Status.OutputFault)) (K.faults out.old) (K.faults out.new) }
    {
        match peek_message(alloc, &self.waiting) {
            Ok(Some((message, len))) => {
                write_message(alloc, form, self.place, &message, out)?;
                self.waiting.advance(len);
                self.place = self.place.saturating_add(1);
                Ok(true)
            }
            Ok(None) => Ok(false),
            Err(error) => Err(wrong_frame(self.place, error)),
        }
    }

    // How the input ends, where no whole frame waits.
    fn end(&self) -> Result<(), EventsStatus>
        ensures ends { (form : Form) (taken : List ℕ) (left before now : Option (List ℕ)) → IsAtEnd left → ShowsUpTo form taken self.now before now
            → WaitsUnfinished self.now → EndsDecodingAs form taken left before now result }
        ensures sound { IsErrOf result (EventsStatus.Ended Status.OutputFault) → ⊥ }
    {
        if self.waiting.remaining() == 0 {
            Ok(())
        } else {
            Err(EventsStatus::CutShort(self.place))
        }
    }
}

// Writes a message in a form, where the form can spell it.
pub(crate) fn write_message<K: ByteSink>(
    alloc: Global,
    form: EventForm,
    place: u64,
    message: &Message,
    out: &mut K,
) -> Result<(), EventsStatus>
    ensures wrote { WritesMessage form place message.now (K.held out.old) (K.held out.new) result }
    ensures failed { CountsFault (IsErrOf result (EventsStatus.Ended Status.OutputFault)) (K.faults out.old) (K.faults out.new) }
{
    if !is_spelled(form, message) {
        return Err(EventsStatus::Unspelled(place));
    }
    let text = message_text(alloc, form, message)?;
    write_all(out, text.as_slice())?;
    Ok(())
}

// The frame at a place is none, or memory ran out.
fn wrong_frame(place: u64, error: Error) -> EventsStatus
    ensures { result ≡ wrong_frame place error }
{
    match error.kind() {
        ErrorKind::NoMemory => EventsStatus::Ended(Status::NoMemory),
        _ => EventsStatus::WrongFrame(place, error),
    }
}

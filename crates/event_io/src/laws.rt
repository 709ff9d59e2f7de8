ghost use Rattle.std.specs.Prelude.{◌≡◌, ℕ, List, [], ◌∷◌, ◌++◌, None, Result, Ok, Err, All};
ghost use Rattle.smithy_core.specs.Message.{Parts};
ghost use Rattle.smithy_core.specs.Moment.{Instant};
ghost use Rattle.smithy_core.specs.declared.sdk_error.SdkError.TheVariants.{NoMemory};
ghost use Rattle.eventstream.specs.Key.{Signer};
ghost use Rattle.eventstream.specs.Laws.{IsProper};
ghost use Rattle.eventstream.specs.Reading.{reading};
ghost use Rattle.eventstream.specs.declared.error.Error.{Error as Refusal};
ghost use Rattle.event_io.specs.Adapter.{Polls, TakesMoment, NamesSendWant};
ghost use Rattle.event_io.specs.AdapterFault.{SendError};
ghost use Rattle.event_io.specs.Chain.{Chains, HasSent, IsIdentity, PollsChain, StaysWithinLink};
ghost use Rattle.event_io.specs.Drain.{BeginsWith, ReceivesAll, drained_by, messages_in};
ghost use Rattle.event_io.specs.Laws.{Call, HoldFirst, IsChained, ReadsChain, TakeEach, Tell, messages_of};
ghost use Rattle.event_io.specs.Receiver.{Cuts, PassesMessages, Receives, Rest, NamesWantOfMemory, Unmarshals, is_terminated, kept_message, recv_stop, rest_of, terminates, unmarshaller_of, unread};
ghost use Rattle.event_io.specs.ResponseFault.{ReceiveError as ReceiveRefusal};
ghost use Rattle.event_io.specs.declared.adapter.MessageStreamAdapter.{MessageStreamAdapter};
ghost use Rattle.event_io.specs.declared.adapter.Next.{Next};
ghost use Rattle.event_io.specs.declared.adapter.Next.TheVariants.{Frame};
ghost use Rattle.event_io.specs.declared.received.Received.{Received};
ghost use Rattle.event_io.specs.declared.receiver.Receiver.{Receiver};

use crate::event_source::EventSource;
use eventstream::{Error, MarshallMessage, SignMessage, UnmarshallMessage};
use smithy_core::{Clock, FrameSource, Message};

/// The joined frames of a chain of signed messages are read as these messages and nothing else. The payload of each but the
/// last is the frame of its event, which is read as the event with its moments in whole milliseconds, and that of the last is
/// empty.
#[tactic(auto, using(crate::proofs::LawLemmas::chain_read))]
pub fn chains_read_back()
    ensures { (signer : Signer) (events : List Parts) (moments : List Instant) (signature : List ℕ) → All IsProper events
        → IsChained signer events moments signature → ReadsChain signer events moments signature }
{}

/// Messages that the rest begins with, and then those that the rest after them begins with, are those that the rest begins
/// with: a receiver's calls answer, one after another, what one call would.
#[tactic(auto, using(crate::proofs::DrainLemmas::begins_more))]
pub fn calls_join()
    ensures { (before between after : Rest) (messages others : List Parts) → BeginsWith before messages between → BeginsWith between others after → BeginsWith before (messages ++ others) after }
{}

/// Over any list of calls of a receiver in which no message is kept, of [`Receiver::recv`](crate::Receiver::recv) and of
/// [`receive_all`](crate::receive_all), the answers are the messages of the reading of the bytes that were still to be read, in
/// order, and its one fault, and then the end again and again, however the bytes were cut (`tells`). A call of `recv` counts as one of
/// `receive_all` that takes one message at most (`takes`). Where the source doesn't show what it has left, the messages are those that
/// the bytes at hand and those that were taken begin with (`holds`).
pub fn calls_tell_the_reading<
    F: FrameSource,
    U: UnmarshallMessage<Output = Message, Error = Error>,
>()
    ensures tells { (calls : List Call) (old new : Receiver F U) (bytes : List ℕ) → rest_of F.FrameSource old ≡ unread bytes
        → TakeEach F.FrameSource old calls new → Tell calls (reading bytes) }
    ensures holds { (calls : List Call) (old new : Receiver F U) → TakeEach F.FrameSource old calls new → HoldFirst F.FrameSource old (messages_of calls) new }
    ensures takes { (answer : Result (Received Parts) (ReceiveRefusal Refusal)) (old new : Receiver F U) (given : List Parts) → PassesMessages U.UnmarshallMessage
        → kept_message old ≡ None → Receives F.FrameSource U.UnmarshallMessage (kept_message old) (is_terminated old) old new answer
        → (kept_message old ≡ None → Cuts (recv_stop answer) (terminates answer) (λ message. Unmarshals U.UnmarshallMessage (unmarshaller_of old) message answer)
        (rest_of F.FrameSource old) (rest_of F.FrameSource new))
        → NamesWantOfMemory answer → ReceivesAll F.FrameSource 1 old new given (given ++ messages_in answer) (drained_by answer) }
{}

/// Each call of an adapter whose items are messages as they are, and whose signer signs them, answers the next frame of the
/// chain, or why there is none (`polled`); so the frames that it has answered are the chain's first (`sent`). Where memory ran out
/// what is known of the signer is as before, or one link on (`stays`).
pub fn chain_polled<
    S: EventSource<Item = Message>,
    M: MarshallMessage<Input = Message>,
    EM: MarshallMessage<Input = S::Error>,
    G: SignMessage,
    C: Clock,
>()
    ensures polled { IsIdentity M.MarshallMessage → (who : Signer) (before now : C) (old_moments moments : List Instant) (events : List Parts) (signature : List ℕ)
        (old new : MessageStreamAdapter S M EM G) (result : Result Next SendError)
        → Chains S.EventSource G.SignMessage who events signature old → NamesSendWant result
        → Polls S.EventSource M.MarshallMessage EM.MarshallMessage G.SignMessage C.Clock before now old_moments moments old new result
        → PollsChain S.EventSource G.SignMessage C.Clock before now old_moments moments who events signature old new result }
    ensures sent { IsIdentity M.MarshallMessage → (who : Signer) (before now : C) (old_moments moments : List Instant) (events : List Parts) (signature : List ℕ)
        (frames : List (List ℕ)) (sent : List Instant) (old new : MessageStreamAdapter S M EM G) (bytes : List ℕ)
        → Polls S.EventSource M.MarshallMessage EM.MarshallMessage G.SignMessage C.Clock before now old_moments moments old new (Ok (Frame bytes))
        → HasSent S.EventSource G.SignMessage who events signature frames sent old
        → (t : Instant) × TakesMoment C.Clock before now old_moments moments t
        × HasSent S.EventSource G.SignMessage who events signature (frames ++ bytes ∷ []) (sent ++ t ∷ []) new }
    ensures stays { IsIdentity M.MarshallMessage → (who : Signer) (before now : C) (old_moments moments : List Instant) (events : List Parts) (signature : List ℕ)
        (old new : MessageStreamAdapter S M EM G)
        → Chains S.EventSource G.SignMessage who events signature old
        → Polls S.EventSource M.MarshallMessage EM.MarshallMessage G.SignMessage C.Clock before now old_moments moments old new (Err NoMemory)
        → StaysWithinLink S.EventSource G.SignMessage C.Clock before now old_moments moments who events signature new }
{}

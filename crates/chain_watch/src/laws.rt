ghost use Rattle.std.specs.Prelude.{◌≡◌, ◌↔◌, ℕ, List, [], ◌∷◌, ◌++◌, All, Result, Ok, map};
ghost use Rattle.std.specs.List.{concat};
ghost use Rattle.smithy_core.specs.Message.{Parts};
ghost use Rattle.smithy_core.specs.Moment.{Instant};
ghost use Rattle.eventstream.specs.Key.{Signer};
ghost use Rattle.eventstream.specs.Laws.{IsProper, floored_message};
ghost use Rattle.eventstream.specs.Link.{chain};
ghost use Rattle.chain_watch.specs.Calls.{AnswersWalk, AreFed, EndsChain, Feeding, HandOut, IsFed, handed_out, taken_by};
ghost use Rattle.chain_watch.specs.Chain.{IsByte, IsChainOf, IsWholeChain};
ghost use Rattle.chain_watch.specs.Walk.{Point, chain_events, walk, walk_onto};
ghost use Rattle.chain_watch.specs.Watch.{EndsWatch, Watching, new_watch};
ghost use Rattle.chain_watch.specs.declared.chain_fault.ChainFault.{ChainFault};

/// A chain that was written is accepted: its events come back, each moment in their headers in whole milliseconds.
#[tactic(auto, using(crate::proofs::WrittenLemmas::written_accepted))]
pub fn written_chains_are_accepted()
    ensures { (signer : Signer) (events : List Parts) (moments : List Instant) (seed : List ℕ) → All IsProper events → IsWholeChain signer events moments seed
        → chain_events signer seed (concat (chain signer events moments seed)) ≡ Ok (map floored_message events) }
{}

/// Events are accepted exactly where the bytes are their chain, for the moments that its frames carry, and their own
/// moments are whole milliseconds.
pub fn exactly_chains_are_accepted()
    ensures { (signer : Signer) (seed bytes : List ℕ) (events : List Parts) → All IsByte bytes → All IsProper events
        → (chain_events signer seed bytes ≡ Ok events) ↔ IsChainOf signer seed bytes events }
{}

/// The walk of joined bytes from a point is that of the first bytes, and then that of the others from the point reached.
#[tactic(auto, using(crate::proofs::WalkLemmas::walk_joined))]
pub fn walks_join()
    ensures { (signer : Signer) (at : Point) (first second : List ℕ)
        → walk signer at (first ++ second) ≡ walk_onto (walk signer at first).events (walk signer (walk signer at first).at second) }
{}

/// Over any list of calls of [`ChainWatch::feed`](crate::ChainWatch::feed) the events handed out are the first of the walk of
/// the bytes taken, each once (`hands`), and where the last answer isn't want of memory they are all of them, and the answer is
/// its state (`answers`). With the events of [`ChainWatch::finish`](crate::ChainWatch::finish) the answer is that of
/// [`check_chain`](crate::check_chain) on the bytes taken, or memory ran out (`ends`).
#[tactic(auto, using(crate::proofs::CallLemmas::hand_out, crate::proofs::CallLemmas::answers_walk, crate::proofs::CallLemmas::ends_chain))]
pub fn watches_never_trust_early()
    ensures hands { (calls : List Feeding) (old new : Watching) → AreFed old calls new → HandOut old calls new }
    ensures answers { (calls : List Feeding) (last : Feeding) (old between new : Watching) → AreFed old calls between → IsFed between last new
        → AnswersWalk old (calls ++ last ∷ []) last.answer }
    ensures ends { (signer : Signer) (seed : List ℕ) (calls : List Feeding) (watch : Watching) (before events : List Parts) (result : Result (Unit {0}) ChainFault)
        → AreFed (new_watch signer seed) calls watch → EndsWatch watch before (before ++ events) result
        → EndsChain (chain_events signer seed (taken_by calls)) (handed_out calls ++ events) result }
{}

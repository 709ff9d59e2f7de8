ghost use Rattle.std.specs.Prelude.{◌≡◌, ◌≤◌, IfOk, List, [], Option, Result, ℕ, string_bytes, string_capacity};
ghost use Rattle.uuid.specs.Text.{hyphenated_text, lower};
ghost use Rattle.aws_intercept.specs.Invocation.{GivesDrawn, GivesFirst, GivesNone, numbers_of};
ghost use Rattle.aws_intercept.specs.declared.id_fault.IdFault.{IdFault as Fault};

use crate::id_fault::IdFault;
use crate::invocation_id::InvocationId;
use rand_core::Rng;
use smithy_core::Mem;
use std::alloc::Global;
use std::marker::Model;
use uuid::Uuid;

/// Gives the ids of invocations. `answers` relates a generator before a call, its answer, and the generator after it.
pub trait InvocationIdGenerator {
    ghost answers: { Self → Result (Option (List ℕ)) Fault → Self → Type 0 };

    /// The next id, where the invocation gets one.
    fn generate(&mut self) -> Result<Option<InvocationId>, IdFault>
        ensures { answers self.old result self.new };
}

/// Gives random ids: UUIDs of version 4 (RFC 9562, section 5.4).
#[derive(Drop)]
pub struct DefaultInvocationIdGenerator<R: Rng> {
    alloc: Global,
    rng: R,
}

impl<R: Rng> DefaultInvocationIdGenerator<R> {
    /// Ids of the bytes that the generator of random numbers gives.
    pub fn new(alloc: Global, rng: R) -> DefaultInvocationIdGenerator<R>
        ensures { numbers_of result ≡ rng }
    {
        DefaultInvocationIdGenerator { alloc, rng }
    }
}

impl<R: Rng + Clone> DefaultInvocationIdGenerator<R> {
    /// A generator with a copy of the generator of random numbers.
    pub fn try_clone(&self) -> Mem<DefaultInvocationIdGenerator<R>>
        ensures { IfOk result (λ copy. R.is_clone (numbers_of self.now) (numbers_of copy)) }
    {
        Ok(DefaultInvocationIdGenerator {
            alloc: self.alloc,
            rng: self.rng.clone()?,
        })
    }
}

impl<R: Rng> InvocationIdGenerator for DefaultInvocationIdGenerator<R> {
    ghost answers = { λ old answer new. GivesDrawn (R.stream old.rng) answer (R.stream new.rng) };

    fn generate(&mut self) -> Result<Option<InvocationId>, IdFault> {
        let text = String::with_capacity(self.alloc, ID_LENGTH)?;
        let id = Uuid::new_v4(&mut self.rng);
        Ok(Some(written_id(text, id)))
    }
}

/// The length of a UUID's text.
const ID_LENGTH: usize = 36;

// The id of a UUID, in a text that has room for it.
#[tactic(auto, using(crate::proofs::InvocationLemmas::id_length))]
fn written_id(mut text: String, id: Uuid) -> InvocationId
    requires room { 36 ≤ string_capacity text }
    requires empty { string_bytes text ≡ [] }
    ensures { result ≡ hyphenated_text lower id }
{
    let mut buffer = Uuid::encode_buffer();
    let id_text = id.hyphenated().encode_lower(&mut buffer);
    text.push_str(id_text).unwrap();
    InvocationId::from_text(text)
}

/// Gives the ids that it was given, in order.
///
/// Contracts see the ids that are left.
#[derive(Debug, Drop)]
pub struct PredefinedInvocationIdGenerator {
    // The next one stands last.
    left: Vec<InvocationId>,
}

impl Model for PredefinedInvocationIdGenerator {
    ghost use Rattle.std.specs.Prelude.{ℕ, List, reverse};

    ghost Value = { List (List ℕ) };

    ghost view = { λ generator. reverse generator.left.items };
}

impl PredefinedInvocationIdGenerator {
    /// These ids, the first one first.
    pub fn new(mut ids: Vec<InvocationId>) -> PredefinedInvocationIdGenerator
        ensures { result ≡ ids.items }
    {
        ids.reverse();
        PredefinedInvocationIdGenerator { left: ids }
    }

    /// A generator with the same ids left.
    pub fn try_clone(&self) -> Mem<PredefinedInvocationIdGenerator>
        ensures { IfOk result (λ copy. copy ≡ self.now) }
    {
        let left = copied_ids(*self.left.allocator(), self.left.as_slice())?;
        Ok(PredefinedInvocationIdGenerator { left })
    }
}

impl InvocationIdGenerator for PredefinedInvocationIdGenerator {
    ghost answers = { GivesFirst };

    fn generate(&mut self) -> Result<Option<InvocationId>, IdFault> {
        match self.left.pop() {
            Some(id) => Ok(Some(id)),
            None => Err(IdFault::UsedUp),
        }
    }
}

fn copied_ids(alloc: Global, ids: &[InvocationId]) -> Mem<Vec<InvocationId>>
    ensures { IfOk result (λ copies. copies.items ≡ ids.now) }
{
    let mut copies = Vec::new(alloc);
    for id in ids {
        copies.push(id.try_clone()?)?;
    }
    Ok(copies)
}

/// Gives no ids.
#[derive(Clone, Copy, Debug)]
pub struct NoInvocationIdGenerator;

impl NoInvocationIdGenerator {
    /// The generator.
    pub fn new() -> NoInvocationIdGenerator {
        NoInvocationIdGenerator
    }
}

impl InvocationIdGenerator for NoInvocationIdGenerator {
    ghost answers = { λ _ answer _. GivesNone answer };

    fn generate(&mut self) -> Result<Option<InvocationId>, IdFault> {
        Ok(None)
    }
}

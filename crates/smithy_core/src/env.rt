ghost use Rattle.std.specs.Prelude.{◌≡◌, ℕ, List, [], ◌∷◌, ◌++◌, map, IfOk, OnOk, OnErr, option_copied};
ghost use Rattle.std.specs.Option.{option_or};
ghost use Rattle.std.specs.String.{string_bytes};
ghost use Rattle.smithy_core.specs.TextPairs.{last_value, value_if};

use crate::memory::Mem;
use crate::text_pairs::{copied_pairs, fmt_value_sizes};
use std::alloc::Global;
use std::fmt;
use std::marker::Model;

/// Environment variables. Of equal names the last one counts. [`Debug`](std::fmt::Debug) prints names and the lengths of
/// values, since a value may be a secret.
///
/// Contracts see the list of the pairs.
#[derive(Drop)]
pub struct Env {
    pairs: Vec<(String, String)>,
}

impl Model for Env {
    ghost use Rattle.std.specs.Prelude.{ℕ, List, map};
    ghost use Rattle.std.specs.String.{string_bytes};

    ghost Value = { List (List ℕ × List ℕ) };

    ghost view = { λ env. map (λ pair. (string_bytes pair.0, string_bytes pair.1)) env.pairs.items };
}

impl Env {
    /// No variables.
    pub fn new(alloc: Global) -> Env
        ensures { result ≡ [] }
    {
        Env {
            pairs: Vec::new(alloc),
        }
    }

    /// Appends the pair.
    pub fn set(&mut self, key: &str, value: &str) -> Mem<()>
        ensures ok { OnOk result (self.new ≡ self.old ++ (key.now, value.now) ∷ []) }
        ensures err { OnErr result (self.new ≡ self.old) }
    {
        let alloc = *self.pairs.allocator();
        let pair = (
            String::from_str(alloc, key)?,
            String::from_str(alloc, value)?,
        );
        self.pairs.push(pair)?;
        Ok(())
    }

    /// Equal variables.
    pub fn try_clone(&self) -> Mem<Env>
        ensures { IfOk result (λ copy. copy ≡ self.now) }
    {
        Ok(Env {
            pairs: copied_pairs(*self.pairs.allocator(), self.pairs.as_slice())?,
        })
    }

    /// The value of the last pair with this name.
    pub fn get(&self, key: &str) -> Option<&str>
        ensures { option_copied result ≡ last_value self.now key.now }
    {
        last_text(self.pairs.as_slice(), key)
    }
}

impl fmt::Debug for Env {
    ghost use Rattle.std.specs.Prelude.{Some};
    ghost use Rattle.smithy_core.specs.TextPairs.{value_sizes};

    ghost debug_output = { λ env. Some (value_sizes env) };

    fn fmt<W: fmt::Write>(&self, f: &mut fmt::Formatter<W>) -> fmt::Result {
        fmt_value_sizes(self.pairs.as_slice(), f)
    }
}

// The value of the last pair with this name.
#[tactic(auto, using(crate::proofs::PairLemmas::last_value_more))]
fn last_text<'a>(pairs: &'a [(String, String)], key: &str) -> Option<&'a str>
    ensures { option_copied result ≡ last_value (map (λ pair. (string_bytes pair.0, string_bytes pair.1)) pairs.now) key.now }
{
    let mut found = None;
    for pair in pairs {
        found = later_text(found, pair, key);
    }
    found
}

// The value of the pair where it has this name, or else what was found before it.
fn later_text<'a>(found: Option<&'a str>, pair: &'a (String, String), key: &str) -> Option<&'a str>
    ensures { option_copied result ≡ option_or (value_if (string_bytes pair.now.0, string_bytes pair.now.1) key.now) (option_copied found.entry) }
{
    if pair.0.as_str() == key {
        Some(pair.1.as_str())
    } else {
        found
    }
}

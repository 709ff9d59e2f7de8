ghost use Rattle.std.specs.Prelude.{◌≡◌, ◌<◌, ◌↔◌, IsSome, IsTrue, map, [], ◌∷◌, ◌++◌, ◌+◌, length, IfOk, OnOk, OnErr, option_copied, bytes_eq, filter, not, ◌≤◌, vec_len, vec_capacity};
ghost use Rattle.std.specs.String.{string_bytes};
ghost use Rattle.smithy_core.specs.TextPairs.{AreLower, all_inserted, first_value, inserted, lower, lower_name, named_values, first_place, text_pairs};

use crate::header_iter::HeaderIter;
use crate::header_values::{HeaderValues, after_named};
use crate::memory::Mem;
use crate::text_pairs::{copied_pairs, fmt_value_sizes};
use std::alloc::{AllocError, Global};
use std::fmt;
use std::marker::Model;

/// Headers of a request or a response: pairs of a name in ASCII lower case and a value, in order. Nothing is tested.
/// [`Debug`](std::fmt::Debug) prints names and the lengths of values, since a value may be a secret.
///
/// Contracts see the list of the pairs.
#[derive(Drop)]
pub struct Headers {
    pairs: Vec<(String, String)>,
}

impl Model for Headers {
    ghost use Rattle.std.specs.Prelude.{ℕ, List};
    ghost use Rattle.smithy_core.specs.TextPairs.{AreLower, text_pairs};

    ghost Value = { List (List ℕ × List ℕ) };

    ghost view = { λ headers. text_pairs headers.pairs.items };

    ghost invariant = { λ headers. AreLower (text_pairs headers.pairs.items) };
}

impl Headers {
    /// No headers.
    pub fn new(alloc: Global) -> Headers
        ensures { result ≡ [] }
    {
        Headers {
            pairs: Vec::new(alloc),
        }
    }

    /// Adds the pair at the end.
    #[tactic(auto, using(crate::proofs::LowerLemmas::lower_pushed))]
    pub fn append(&mut self, name: &str, value: &str) -> Mem<()>
        ensures ok { OnOk result (self.new ≡ self.old ++ (lower name.now, value.now) ∷ []) }
        ensures err { OnErr result (self.new ≡ self.old) }
    {
        let pair = lower_pair(*self.pairs.allocator(), name, value)?;
        self.pairs.push(pair)?;
        Ok(())
    }

    /// Puts the pair at the first place of its name and drops the others of that name, or else adds it at the end.
    #[tactic(auto, using(crate::proofs::LowerLemmas::lower_put))]
    pub fn insert(&mut self, name: &str, value: &str) -> Mem<()>
        ensures ok { OnOk result (self.new ≡ inserted self.old (lower name.now) value.now) }
        ensures err { OnErr result (self.new ≡ self.old) }
    {
        let pair = lower_pair(*self.pairs.allocator(), name, value)?;
        self.pairs.reserve(1)?;
        put(&mut self.pairs, pair);
        Ok(())
    }

    /// Puts the pairs in, in order, each as [`Headers::insert`] does. Where memory runs out, none is put in.
    #[tactic(auto, using(crate::proofs::LowerLemmas::lower_put_all))]
    pub fn insert_all(&mut self, pairs: Vec<(String, String)>) -> Mem<()>
        ensures ok { OnOk result (self.new ≡ all_inserted self.old (text_pairs pairs.items)) }
        ensures err { OnErr result (self.new ≡ self.old) }
    {
        self.pairs.reserve(pairs.len())?;
        put_all(&mut self.pairs, pairs);
        Ok(())
    }

    /// The pairs in order, as texts.
    pub fn iter(&self) -> HeaderIter<'_>
        ensures { result ≡ self.now }
    {
        HeaderIter::over(self.pairs.as_slice())
    }

    /// The value of the first pair with this name, in whatever case the name is given.
    pub fn get(&self, name: &str) -> Option<&str>
        ensures { option_copied result ≡ first_value self.now (lower name.now) }
    {
        match after_named(self.pairs.as_slice(), name) {
            Some((value, _)) => Some(value),
            None => None,
        }
    }

    /// Whether a pair has this name, in whatever case the name is given. Each name is kept in lower case.
    pub fn contains_key(&self, name: &str) -> bool
        ensures found { IsTrue result ↔ IsSome (first_value self.now (lower name.now)) }
        ensures lower { AreLower self.now }
    {
        after_named(self.pairs.as_slice(), name).is_some()
    }

    /// The values of this name in order, in whatever case the name is given.
    pub fn get_all<'a>(&'a self, name: &'a str) -> HeaderValues<'a>
        ensures { result ≡ named_values self.now (lower name.now) }
    {
        HeaderValues::over(self.pairs.as_slice(), name)
    }

    /// Equal headers.
    #[tactic(auto, using(crate::proofs::LowerLemmas::lower_copied))]
    pub fn try_clone(&self) -> Mem<Headers>
        ensures { IfOk result (λ copy. copy ≡ self.now) }
    {
        Ok(Headers {
            pairs: copied_pairs(*self.pairs.allocator(), self.pairs.as_slice())?,
        })
    }

    /// How many pairs there are.
    pub fn len(&self) -> usize
        ensures { result ≡ length self.now }
    {
        self.pairs.len()
    }

    /// Whether there are no pairs.
    pub fn is_empty(&self) -> bool
        ensures { IsTrue result ↔ (self.now ≡ []) }
    {
        self.pairs.is_empty()
    }
}

impl<'a> IntoIterator for &'a Headers {
    type Item = (&'a str, &'a str);

    type IntoIter = HeaderIter<'a>;

    ghost into_iter_gives = { λ headers iter. iter ≡ headers.now };

    fn into_iter(self) -> HeaderIter<'a> {
        self.iter()
    }
}

impl<'a> FromIterator<(&'a str, &'a str)> for Headers {
    type Alloc = Global;

    ghost from_iter_gives = { λ pairs headers. headers ≡ map lower_name pairs };

    fn from_iter<U: IntoIterator<Item = (&'a str, &'a str)>>(
        alloc: Global,
        iter: U,
    ) -> Result<Headers, AllocError> {
        let pairs = Vec::from_iter(alloc, iter)?;
        appended(alloc, pairs.as_slice())
    }
}

// The pairs, appended one by one.
fn appended(alloc: Global, pairs: &[(&str, &str)]) -> Mem<Headers>
    ensures { IfOk result (λ headers. headers ≡ map lower_name pairs.now) }
{
    let mut headers = Headers::new(alloc);
    for (name, value) in pairs {
        headers.append(*name, *value)?;
    }
    Ok(headers)
}

impl fmt::Debug for Headers {
    ghost use Rattle.std.specs.Prelude.{Some};
    ghost use Rattle.smithy_core.specs.TextPairs.{value_sizes};

    ghost debug_output = { λ headers. Some (value_sizes headers) };

    fn fmt<W: fmt::Write>(&self, f: &mut fmt::Formatter<W>) -> fmt::Result {
        fmt_value_sizes(self.pairs.as_slice(), f)
    }
}

fn lower_pair(alloc: Global, name: &str, value: &str) -> Mem<(String, String)>
    ensures { IfOk result (λ pair. (string_bytes pair.0 ≡ lower name.now) × (string_bytes pair.1 ≡ value.now)) }
{
    let mut name = String::from_str(alloc, name)?;
    name.make_ascii_lowercase();
    Ok((name, String::from_str(alloc, value)?))
}

// Puts the pairs in, in order, each under its name in lower case, where there is room for all.
fn put_all(pairs: &mut Vec<(String, String)>, more: Vec<(String, String)>)
    requires { vec_len pairs.old + vec_len more ≤ vec_capacity pairs.old }
    ensures { text_pairs pairs.new.items ≡ all_inserted (text_pairs pairs.old.items) (text_pairs more.items) }
{
    for (mut name, value) in more {
        name.make_ascii_lowercase();
        put(pairs, (name, value));
    }
}

// Puts the pair at the first place of its name and drops the others of that name, or else adds it at the end.
fn put(pairs: &mut Vec<(String, String)>, pair: (String, String))
    requires { vec_len pairs.old < vec_capacity pairs.old }
    ensures len { vec_len pairs.new ≤ vec_len pairs.old + 1 }
    ensures capacity { vec_capacity pairs.old ≤ vec_capacity pairs.new }
    ensures items { text_pairs pairs.new.items ≡ inserted (text_pairs pairs.old.items) (string_bytes pair.0) (string_bytes pair.1) }
{
    let at = first_place(pairs.as_slice(), pair.0.as_str());
    drop_named(pairs, pair.0.as_str());
    pairs.insert(at, pair).unwrap();
}

// Drops the pairs of the name.
fn drop_named(pairs: &mut Vec<(String, String)>, name: &str)
    ensures items { pairs.new.items ≡ filter (λ pair. not (bytes_eq (string_bytes pair.0) name.now)) pairs.old.items }
    ensures len { vec_len pairs.new ≤ vec_len pairs.old }
    ensures capacity { vec_capacity pairs.new ≡ vec_capacity pairs.old }
{
    pairs.retain(|pair| pair.0.as_str() != name);
}

// The first place of the name, or the number of pairs.
fn first_place(pairs: &[(String, String)], name: &str) -> usize
    ensures { result ≡ first_place (text_pairs pairs.now) name.now }
{
    for (at, pair) in pairs.iter().enumerate() {
        if pair.0.as_str() == name {
            return at;
        }
    }
    pairs.len()
}

ghost use Rattle.std.specs.Prelude.{◌≡◌, ℕ, List, [], ◌∷◌, ◌++◌, length, map, true, IfOk, IfSome, IfNone, OnOk};
ghost use Rattle.std.specs.String.{string_bytes};
ghost use Rattle.std.specs.List.{AllByRecursion, position_or_len};
ghost use Rattle.std.specs.List.Sorted.{IsStrictlySortedBy};
ghost use Rattle.env_config.specs.Entries.{left_in};
ghost use Rattle.env_config.specs.Line.{equals_sign, is_equals};
ghost use Rattle.env_config.specs.SectionProperties.{own};
ghost use Rattle.env_config.specs.Sections.{is_identifier, put_identifiers};
ghost use Rattle.env_config.specs.Texts.{one_pair, pairs_of, put, text_cmp};
ghost use Rattle.env_config.specs.TextsView.{pairs_in};

use crate::entries::Entries;
use crate::few_pairs::FewPairs;
use crate::heading::is_identifier;
use smithy_core::Mem;
use std::alloc::Global;
use std::collections::BTreeMap;
use std::marker::Model;
use std::mem;

/// A value of no more bytes is copied beside its key. A longer one would take its room twice meanwhile.
const SHORT: usize = 1024;

/// Values by their keys, which take little room where they are few: a text may have very many sections.
///
/// Contracts see the pairs in the order of their keys.
#[derive(Drop)]
pub struct Texts {
    pairs: Pairs,
}

/// The pairs in the order of their keys.
// Each form is needed. Files of tiny sections took 1.3 to 1.6 times the memory where a list held one pair too, and 2.1 times
// where a map held two. In a list alone, a section of very many pairs would take time by their square.
#[derive(Drop)]
enum Pairs {
    /// One pair as a text, the key before the first `=` and the value after it, or no pair.
    PairText(String),
    /// Up to sixteen pairs in a list.
    PairList(FewPairs),
    /// Pairs in a map.
    PairMap(BTreeMap<String, String>),
}

impl Model for Texts {
    ghost use Rattle.std.specs.Prelude.{ℕ, List};
    ghost use Rattle.env_config.specs.TextsView.{pairs_in};

    ghost Value = { List (List ℕ × List ℕ) };

    ghost view = { λ texts. pairs_in texts.pairs };
}

impl Texts {
    /// No keys.
    pub fn new(alloc: Global) -> Texts
        ensures { result ≡ [] }
    {
        Texts {
            pairs: Pairs::PairText(String::new(alloc)),
        }
    }

    /// The value stands at the key, in place of the one before. Nothing is said of the pairs where memory runs out.
    pub fn put(&mut self, key: String, value: String) -> Mem<()>
        ensures { OnOk result (self.new ≡ put self.old (string_bytes key) (string_bytes value)) }
    {
        let alloc = *key.allocator();
        let pairs = mem::replace(&mut self.pairs, Pairs::PairText(String::new(alloc)));
        self.pairs = with_pair(alloc, pairs, key, value)?;
        Ok(())
    }

    /// Takes the first key and its value.
    pub fn take_first(&mut self) -> Mem<Option<(String, String)>>
        ensures some { IfOk result (λ first. IfSome first (λ pair. self.old ≡ (string_bytes pair.0, string_bytes pair.1) ∷ self.new)) }
        ensures none { IfOk result (λ first. IfNone first (self.old ≡ [])) }
    {
        match &mut self.pairs {
            Pairs::PairText(text) => take_one(text),
            Pairs::PairList(pairs) => Ok(pairs.take_first()),
            Pairs::PairMap(pairs) => Ok(pairs.pop_first()),
        }
    }

    /// The values by their keys.
    pub fn entries(&self) -> Entries<'_>
        ensures left { left_in result ≡ map own self.now }
        ensures ordered { IsStrictlySortedBy text_cmp (map (λ e. e.0) self.now) }
    {
        match &self.pairs {
            Pairs::PairText(text) => one_entry(text.as_str()),
            Pairs::PairList(pairs) => Entries::PairList(pairs.as_slice()),
            Pairs::PairMap(pairs) => Entries::PairMap(pairs.iter()),
        }
    }

    /// How many there are.
    pub fn len(&self) -> usize
        ensures { result ≡ length self.now }
    {
        match &self.pairs {
            Pairs::PairText(text) => one_len(text.as_str()),
            Pairs::PairList(pairs) => pairs.as_slice().len(),
            Pairs::PairMap(pairs) => pairs.len(),
        }
    }

    /// Whether all keys are identifiers.
    pub fn has_identifiers(&self) -> bool
        ensures { result ≡ true → put_identifiers [] self.now ≡ self.now }
    {
        has_identifiers(self.entries())
    }

    /// Equal values under equal keys.
    pub fn try_clone(&self) -> Mem<Texts>
        ensures { IfOk result (λ copy. copy ≡ self.now) }
    {
        let pairs = match &self.pairs {
            Pairs::PairText(text) => Pairs::PairText(text.clone()?),
            Pairs::PairList(pairs) => Pairs::PairList(pairs.try_clone()?),
            Pairs::PairMap(pairs) => Pairs::PairMap(copied_map(pairs)?),
        };
        Ok(Texts { pairs })
    }
}

// The pair of the text, if it has one.
#[tactic(auto, using(crate::proofs::FewLemmas::one_in_order))]
fn one_entry(text: &str) -> Entries<'_>
    ensures left { left_in result ≡ map own (one_pair text.now) }
    ensures ordered { IsStrictlySortedBy text_cmp (map (λ e. e.0) (one_pair text.now)) }
{
    Entries::OnePair(text.split_once('='))
}

// How many pairs the text has.
fn one_len(text: &str) -> usize
    ensures { result ≡ length (one_pair text.now) }
{
    match text.split_once('=') {
        Some(_) => 1,
        None => 0,
    }
}

// Whether all keys are identifiers.
fn has_identifiers(mut entries: Entries<'_>) -> bool
    ensures { result ≡ true → AllByRecursion (λ e. is_identifier e.0 ≡ true) (left_in entries.entry) }
{
    while let Some(entry) = entries.next() {
        if !is_identifier(entry.key) {
            return false;
        }
    }
    true
}

fn copied_map(pairs: &BTreeMap<String, String>) -> Mem<BTreeMap<String, String>>
    ensures { IfOk result (λ copy. pairs_of copy.entries ≡ pairs_of pairs.now.entries) }
{
    let copy = pairs.clone()?;
    Ok(copy)
}

// The pairs with this value at the key.
fn with_pair(alloc: Global, pairs: Pairs, key: String, value: String) -> Mem<Pairs>
    ensures { IfOk result (λ now. pairs_in now ≡ put (pairs_in pairs) (string_bytes key) (string_bytes value)) }
{
    match pairs {
        Pairs::PairText(text) => with_one(text, key, value),
        Pairs::PairList(pairs) => with_few(alloc, pairs, key, value),
        Pairs::PairMap(pairs) => with_many(pairs, key, value),
    }
}

// The pair of the text, if it has one, with this value at the key.
fn with_one(text: String, key: String, value: String) -> Mem<Pairs>
    ensures { IfOk result (λ pairs. pairs_in pairs ≡ put (one_pair (string_bytes text)) (string_bytes key) (string_bytes value)) }
{
    if is_joinable(text.as_str(), key.as_str()) && value.len() <= SHORT {
        return Ok(Pairs::PairText(joined_pair(key, value.as_str())?));
    }
    let mut pairs = few_of_one(*text.allocator(), text.as_str())?;
    pairs.put(key, value)?;
    Ok(Pairs::PairList(pairs))
}

// Whether a pair with this key can be kept as a text, in place of the pair of this text.
fn is_joinable(text: &str, key: &str) -> bool
    ensures one { result ≡ true → ((value : List ℕ) → put (one_pair text.now) key.now value ≡ (key.now, value) ∷ []) }
    ensures no_sign { result ≡ true → position_or_len is_equals key.now ≡ length key.now }
{
    key.split_once('=').is_none() && has_no_other(text, key)
}

// Whether the text has no pair, or one with this key.
fn has_no_other(text: &str, key: &str) -> bool
    ensures { result ≡ true → ((value : List ℕ) → put (one_pair text.now) key.now value ≡ (key.now, value) ∷ []) }
{
    match text.split_once('=') {
        Some((before, _)) => before == key,
        None => true,
    }
}

// The pair as a text.
fn joined_pair(mut key: String, value: &str) -> Mem<String>
    ensures { IfOk result (λ text. string_bytes text ≡ string_bytes key ++ equals_sign ∷ value.now) }
{
    key.reserve_exact(value.len() + 1)?;
    key.push_str("=")?;
    key.push_str(value)?;
    Ok(key)
}

// The pair of the text as a list.
fn few_of_one(alloc: Global, text: &str) -> Mem<FewPairs>
    ensures { IfOk result (λ pairs. pairs ≡ one_pair text.now) }
{
    let mut pairs = FewPairs::new(alloc);
    if let Some((key, value)) = cut_one(alloc, text)? {
        pairs.put(key, value)?;
    }
    Ok(pairs)
}

// The pair of the text.
fn cut_one(alloc: Global, text: &str) -> Mem<Option<(String, String)>>
    ensures some { IfOk result (λ first. IfSome first (λ pair. one_pair text.now ≡ (string_bytes pair.0, string_bytes pair.1) ∷ [])) }
    ensures none { IfOk result (λ first. IfNone first (one_pair text.now ≡ [])) }
{
    match text.split_once('=') {
        Some((key, value)) => Ok(Some((
            String::from_str(alloc, key)?,
            String::from_str(alloc, value)?,
        ))),
        None => Ok(None),
    }
}

// Takes the pair of the text.
fn take_one(text: &mut String) -> Mem<Option<(String, String)>>
    ensures some { IfOk result (λ first. IfSome first (λ pair. one_pair (string_bytes text.old) ≡ (string_bytes pair.0, string_bytes pair.1) ∷ one_pair (string_bytes text.new))) }
    ensures none { IfOk result (λ first. IfNone first (one_pair (string_bytes text.old) ≡ [])) }
{
    let alloc = *text.allocator();
    let taken = mem::replace(text, String::new(alloc));
    cut_one(alloc, taken.as_str())
}

// The few pairs with this value at the key.
fn with_few(alloc: Global, mut pairs: FewPairs, key: String, value: String) -> Mem<Pairs>
    ensures { IfOk result (λ now. pairs_in now ≡ put pairs (string_bytes key) (string_bytes value)) }
{
    if pairs.is_full() {
        return with_many(pairs.into_map(alloc)?, key, value);
    }
    pairs.put(key, value)?;
    Ok(Pairs::PairList(pairs))
}

// The many pairs with this value at the key.
fn with_many(mut pairs: BTreeMap<String, String>, key: String, value: String) -> Mem<Pairs>
    ensures { IfOk result (λ now. pairs_in now ≡ put (pairs_of pairs.entries) (string_bytes key) (string_bytes value)) }
{
    pairs.insert(key, value)?;
    Ok(Pairs::PairMap(pairs))
}

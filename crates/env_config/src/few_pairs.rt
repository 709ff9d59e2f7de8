ghost use Rattle.std.specs.Prelude.{◌≡◌, [], ◌∷◌, IfOk, IfSome, IfNone, OnErr, OnOk, map};
ghost use Rattle.std.specs.List.Sorted.{IsStrictlySortedBy};
ghost use Rattle.std.specs.String.{string_bytes};
ghost use Rattle.env_config.specs.Texts.{FindsPlace, pairs_of, put, text_cmp};

use smithy_core::Mem;
use std::alloc::Global;
use std::cmp::Ordering;
use std::collections::BTreeMap;
use std::marker::Model;

/// A list has so many pairs at most. A map takes over where there are more, since a pair is found in a list one by one.
const FEW: usize = 16;

/// A few pairs in the order of their keys, in a list that has room for no more than there are: a node of a map has room
/// for fifteen.
#[derive(Drop)]
pub struct FewPairs {
    pairs: Vec<(String, String)>,
}

impl Model for FewPairs {
    ghost use Rattle.std.specs.Prelude.{ℕ, List, map};
    ghost use Rattle.std.specs.List.Sorted.{IsStrictlySortedBy};
    ghost use Rattle.env_config.specs.Texts.{pairs_of, text_cmp};

    ghost Value = { List (List ℕ × List ℕ) };

    ghost view = { λ few. pairs_of few.pairs.items };

    ghost invariant = { λ few. IsStrictlySortedBy text_cmp (map (λ e. e.0) (pairs_of few.pairs.items)) };
}

impl FewPairs {
    /// No pairs.
    pub fn new(alloc: Global) -> FewPairs
        ensures { result ≡ [] }
    {
        FewPairs {
            pairs: Vec::new(alloc),
        }
    }

    /// Whether a map takes over before there is one more.
    pub fn is_full(&self) -> bool {
        self.pairs.len() >= FEW
    }

    /// The value stands at the key, in place of the one before. Where memory runs out nothing is changed.
    pub fn put(&mut self, key: String, value: String) -> Mem<()>
        ensures ok { OnOk result (self.new ≡ put self.old (string_bytes key) (string_bytes value)) }
        ensures err { OnErr result (self.new ≡ self.old) }
    {
        put_among_few(&mut self.pairs, key, value)
    }

    /// Takes the first pair.
    pub fn take_first(&mut self) -> Option<(String, String)>
        ensures some { IfSome result (λ pair. self.old ≡ (string_bytes pair.0, string_bytes pair.1) ∷ self.new) }
        ensures none { IfNone result (self.old ≡ []) }
    {
        if self.pairs.is_empty() {
            return None;
        }
        Some(self.pairs.remove(0))
    }

    /// The pairs in the order of their keys.
    pub fn as_slice(&self) -> &[(String, String)]
        ensures pairs { pairs_of result.now ≡ self.now }
        ensures ordered { IsStrictlySortedBy text_cmp (map (λ e. e.0) self.now) }
    {
        self.pairs.as_slice()
    }

    /// Equal pairs.
    pub fn try_clone(&self) -> Mem<FewPairs>
        ensures { IfOk result (λ copy. copy ≡ self.now) }
    {
        Ok(FewPairs {
            pairs: self.pairs.clone()?,
        })
    }

    /// The pairs as a map.
    pub fn into_map(self, alloc: Global) -> Mem<BTreeMap<String, String>>
        ensures { IfOk result (λ map. pairs_of map.entries ≡ self) }
    {
        let mut map = BTreeMap::new(alloc);
        for (key, value) in self.pairs {
            map.insert(key, value)?;
        }
        Ok(map)
    }
}

fn put_among_few(pairs: &mut Vec<(String, String)>, key: String, value: String) -> Mem<()>
    ensures ok { OnOk result (pairs_of pairs.new.items ≡ put (pairs_of pairs.old.items) (string_bytes key) (string_bytes value)) }
    ensures err { OnErr result (pairs_of pairs.new.items ≡ pairs_of pairs.old.items) }
{
    match place_of(pairs.as_slice(), key.as_str()) {
        Ok(at) => {
            pairs[at] = (key, value);
            Ok(())
        }
        Err(at) => {
            pairs.reserve_exact(1)?;
            pairs.insert(at, (key, value))?;
            Ok(())
        }
    }
}

// Where the key is, or else where it belongs.
fn place_of(pairs: &[(String, String)], key: &str) -> Result<usize, usize>
    ensures { FindsPlace (pairs_of pairs.now) key.now result }
{
    let mut at = 0;
    while at < pairs.len() {
        match key.cmp(pairs[at].0.as_str()) {
            Ordering::Less => return Err(at),
            Ordering::Equal => return Ok(at),
            Ordering::Greater => at += 1,
        }
    }
    Err(at)
}

ghost use Rattle.std.specs.Prelude.{◌≡◌, [], ◌∷◌, IfSome, IfNone};
ghost use Rattle.env_config.specs.Entries.{entry_of, left_in};

use crate::property::Property;
use std::collections::btree_map;

/// What stands under a key: a key of its own, and a value.
#[derive(Clone, Copy)]
pub struct Entry<'a> {
    pub key: &'a str,
    pub own_key: &'a str,
    pub value: &'a str,
}

/// The entries that are left of properties, in the order of their keys.
#[derive(Drop)]
pub enum Entries<'a> {
    /// A value by its key, or nothing.
    OnePair(Option<(&'a str, &'a str)>),
    /// Values by their keys in a list.
    PairList(&'a [(String, String)]),
    /// Values by their keys in a map.
    PairMap(btree_map::Iter<'a, String, String>),
    /// Properties that a caller gave.
    Given(btree_map::Iter<'a, String, Property>),
}

impl<'a> Entries<'a> {
    /// The next entry.
    pub fn next(&mut self) -> Option<Entry<'a>>
        ensures some { IfSome result (λ entry. left_in self.old ≡ entry_of entry ∷ left_in self.new) }
        ensures none { IfNone result (left_in self.old ≡ []) }
    {
        match self {
            Entries::OnePair(pair) => {
                let (key, value) = pair.take()?;
                Some(own_entry(key, value))
            }
            Entries::PairList(pairs) => {
                let (pair, rest) = pairs.split_first()?;
                *pairs = rest;
                Some(own_entry(pair.0.as_str(), pair.1.as_str()))
            }
            Entries::PairMap(pairs) => {
                let (key, value) = pairs.next()?;
                Some(own_entry(key.as_str(), value.as_str()))
            }
            Entries::Given(properties) => {
                let (key, property) = properties.next()?;
                Some(Entry {
                    key: key.as_str(),
                    own_key: property.key(),
                    value: property.value(),
                })
            }
        }
    }
}

// The value under its own key.
fn own_entry<'a>(key: &'a str, value: &'a str) -> Entry<'a>
    ensures { entry_of result ≡ (key.entry.now, (key.entry.now, value.entry.now)) }
{
    Entry {
        key,
        own_key: key,
        value,
    }
}

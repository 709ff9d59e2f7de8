ghost use Rattle.std.specs.Prelude.{◌≡◌, [], length, map, IfOk, OnOk, option_copied};
ghost use Rattle.std.specs.String.{string_bytes};
ghost use Rattle.smithy_core.specs.TextPairs.{lower};
ghost use Rattle.env_config.specs.Entries.{entry_of, left_in};
ghost use Rattle.env_config.specs.SectionProperties.{contents_of, own, same_contents, same_entry, property_values};
ghost use Rattle.env_config.specs.Texts.{put, value_under};

use crate::entries::{Entries, Entry};
use crate::property::Property;
use crate::texts::Texts;
use smithy_core::{Mem, is_lower_of};
use std::alloc::Global;
use std::collections::BTreeMap;
use std::marker::Model;

/// The properties of a section by their keys.
///
/// Contracts see under each key a key of the property's own and its value.
pub struct SectionProperties {
    held: Held,
}

// Written out: a derived drop would be taken apart in the proof of each function that drops one.
impl Drop for SectionProperties {
    fn drop(self) {
        let SectionProperties { held } = self;
        drop(held);
    }
}

#[derive(Drop)]
enum Held {
    /// Those that a caller gave: each has a key of its own, which may differ from the one under which it stands.
    Given(BTreeMap<String, Property>),
    /// Those of profile files: values by their keys. Each key is kept once, since a file may have very many profiles.
    Read(Texts),
}

impl Model for SectionProperties {
    ghost use Rattle.std.specs.Prelude.{ℕ, List};
    ghost use Rattle.env_config.specs.SectionProperties.{contents_in};

    ghost Value = { List (List ℕ × (List ℕ × List ℕ)) };

    ghost view = { λ properties. contents_in properties.held };
}

impl SectionProperties {
    /// No properties.
    pub fn new(alloc: Global) -> SectionProperties
        ensures { result ≡ [] }
    {
        SectionProperties {
            held: Held::Read(Texts::new(alloc)),
        }
    }

    /// These properties.
    pub fn given(properties: BTreeMap<String, Property>) -> SectionProperties
        ensures { result ≡ contents_of properties.entries }
    {
        SectionProperties {
            held: Held::Given(properties),
        }
    }

    /// The values of profile files by their keys.
    pub fn read(values: Texts) -> SectionProperties
        ensures { result ≡ map own values }
    {
        SectionProperties {
            held: Held::Read(values),
        }
    }

    /// The value of a key, in whatever case the key is given.
    pub fn get(&self, name: &str) -> Option<&str>
        ensures { option_copied result ≡ value_under (property_values self.now) (lower name.now) }
    {
        value_of(self.entries(), name)
    }

    /// The value stands at the key, in place of the one before.
    pub fn put(&mut self, key: String, value: String) -> Mem<()>
        ensures { OnOk result (self.new ≡ put self.old (string_bytes key) (string_bytes key, string_bytes value)) }
    {
        match &mut self.held {
            Held::Given(properties) => put_property(properties, key, value),
            Held::Read(values) => put_own(values, key, value),
        }
    }

    // All of them.
    fn entries(&self) -> Entries<'_>
        ensures { left_in result ≡ self.now }
    {
        match &self.held {
            Held::Given(properties) => Entries::Given(properties.iter()),
            Held::Read(values) => values.entries(),
        }
    }

    /// How many there are.
    pub fn len(&self) -> usize
        ensures { result ≡ length self.now }
    {
        match &self.held {
            Held::Given(properties) => properties.len(),
            Held::Read(values) => values.len(),
        }
    }

    /// Equal properties.
    pub fn try_clone(&self) -> Mem<SectionProperties>
        ensures { IfOk result (λ copy. copy ≡ self.now) }
    {
        let held = match &self.held {
            Held::Given(properties) => Held::Given(copied_properties(properties)?),
            Held::Read(values) => Held::Read(values.try_clone()?),
        };
        Ok(SectionProperties { held })
    }
}

// Equal values under equal keys are equal, whoever gave them.
impl PartialEq for SectionProperties {
    ghost use Rattle.std.specs.Cmp.{and_per, on_per, partial_equiv_from_equiv};
    ghost use Rattle.std.specs.Cmp.Lexicographic.{lists_per, nat_list_eq_equiv};
    ghost use Rattle.env_config.specs.SectionProperties.{same_contents};

    ghost eq = { λ a b. same_contents a b };

    ghost laws = { lists_per (and_per (on_per (λ e. e.0) (partial_equiv_from_equiv nat_list_eq_equiv))
        (and_per (on_per (λ e. e.1.0) (partial_equiv_from_equiv nat_list_eq_equiv)) (on_per (λ e. e.1.1) (partial_equiv_from_equiv nat_list_eq_equiv)))) };

    fn eq(&self, other: &SectionProperties) -> bool {
        are_same(self.entries(), other.entries())
    }
}

impl Eq for SectionProperties {
    ghost use Rattle.std.specs.Cmp.{and_equiv, on_equiv};
    ghost use Rattle.std.specs.Cmp.Lexicographic.{lists_equiv, nat_list_eq_equiv};

    ghost laws = { lists_equiv (and_equiv (on_equiv (λ e. e.0) nat_list_eq_equiv)
        (and_equiv (on_equiv (λ e. e.1.0) nat_list_eq_equiv) (on_equiv (λ e. e.1.1) nat_list_eq_equiv))) };
}

// Whether the entries are equal values under equal keys.
fn are_same(mut entries: Entries<'_>, mut others: Entries<'_>) -> bool
    ensures { result ≡ same_contents (left_in entries.entry) (left_in others.entry) }
{
    while let Some(entry) = entries.next() {
        match others.next() {
            Some(other) if is_same(entry, other) => (),
            _ => return false,
        }
    }
    others.next().is_none()
}

// Whether equal values stand under equal keys.
fn is_same(entry: Entry<'_>, other: Entry<'_>) -> bool
    ensures { result ≡ same_entry (entry_of entry.entry) (entry_of other.entry) }
{
    entry.key == other.key && entry.own_key == other.own_key && entry.value == other.value
}

// The value at the name in ASCII lower case.
fn value_of<'a>(mut entries: Entries<'a>, name: &str) -> Option<&'a str>
    ensures { option_copied result ≡ value_under (property_values (left_in entries.entry)) (lower name.now) }
{
    while let Some(entry) = entries.next() {
        if is_lower_of(entry.key, name) {
            return Some(entry.value);
        }
    }
    None
}

fn put_property(properties: &mut BTreeMap<String, Property>, key: String, value: String) -> Mem<()>
    ensures { OnOk result (contents_of properties.new.entries ≡ put (contents_of properties.old.entries) (string_bytes key) (string_bytes key, string_bytes value)) }
{
    let property = Property::new(key.clone()?, value);
    properties.insert(key, property)?;
    Ok(())
}

fn put_own(values: &mut Texts, key: String, value: String) -> Mem<()>
    ensures { OnOk result (map own values.new ≡ put (map own values.old) (string_bytes key) (string_bytes key, string_bytes value)) }
{
    values.put(key, value)
}

fn copied_properties(properties: &BTreeMap<String, Property>) -> Mem<BTreeMap<String, Property>>
    ensures { IfOk result (λ copy. contents_of copy.entries ≡ contents_of properties.now.entries) }
{
    let copy = properties.clone()?;
    Ok(copy)
}

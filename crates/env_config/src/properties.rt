ghost use Rattle.std.specs.Prelude.{◌≡◌, [], IfOk, OnErr, OnOk, map, option_copied, option_map};
ghost use Rattle.std.specs.List.Sorted.{IsStrictlySortedBy};
ghost use Rattle.std.specs.String.{string_bytes};
ghost use Rattle.env_config.specs.Kept.{keeps_of};
ghost use Rattle.env_config.specs.Sections.{put_at_key, put_others, value_at_key};
ghost use Rattle.env_config.specs.Texts.{text_cmp};
ghost use Rattle.env_config.specs.Properties.{others_of, properties_in, put_named_sub, put_sub_at, named_sub, sub_at, subs_in};
ghost use Rattle.env_config.specs.PropertiesKey.{key_of, names_of};

use crate::kept::Kept;
use crate::merge::put_properties;
use crate::properties_key::{PropertiesKey, SectionNames};
use crate::texts::Texts;
use smithy_core::Mem;
use std::alloc::Global;
use std::collections::BTreeMap;
use std::fmt;

/// The sub-properties of a property by their names. A value of the property itself stands at no name.
pub type SubProperties = BTreeMap<Option<String>, String>;

/// The properties of sections that are neither profiles nor sessions.
// Each name is kept once, however many stand below it: the names of sections and properties may be very long.
#[derive(PartialEq, Eq, Drop)]
pub struct Properties {
    sections: BTreeMap<SectionNames, BTreeMap<String, SubProperties>>,
}

impl Properties {
    /// No properties.
    pub fn new(alloc: Global) -> Properties
        ensures { others_of result ≡ [] }
    {
        Properties {
            sections: BTreeMap::new(alloc),
        }
    }

    /// The value stands at the key, in place of the one before. Where memory runs out nothing is changed.
    pub fn insert(&mut self, key: PropertiesKey, value: String) -> Mem<()>
        ensures ok { OnOk result (others_of self.new ≡ put_at_key (others_of self.old) (key_of key) (string_bytes value)) }
        ensures err { OnErr result (others_of self.new ≡ others_of self.old) }
    {
        let (section, property, sub) = key.into_parts();
        match self.sections.get_mut(&section) {
            Some(properties) => insert_property(properties, property, sub, value),
            None => {
                let mut properties = BTreeMap::new(*value.allocator());
                insert_property(&mut properties, property, sub, value)?;
                self.sections.insert(section, properties)?;
                Ok(())
            }
        }
    }

    // Puts the sub-properties of a raw section, as far as they are kept.
    pub(crate) fn merge(
        &mut self,
        alloc: Global,
        kept: &Kept<'_>,
        section: SectionNames,
        pairs: Texts,
    ) -> Mem<()>
        ensures { OnOk result (others_of self.new ≡ put_others (keeps_of kept.now) (others_of self.old) (names_of section).0 (names_of section).1 pairs) }
    {
        match self.sections.get_mut(&section) {
            Some(properties) => put_properties(alloc, kept, properties, pairs),
            None => {
                let mut properties = BTreeMap::new(alloc);
                put_properties(alloc, kept, &mut properties, pairs)?;
                if properties.is_empty() {
                    return Ok(());
                }
                self.sections.insert(section, properties)?;
                Ok(())
            }
        }
    }

    /// Equal properties.
    pub fn try_clone(&self) -> Mem<Properties>
        ensures { IfOk result (λ copy. others_of copy ≡ others_of self.now) }
    {
        Ok(Properties {
            sections: self.sections.clone()?,
        })
    }

    /// The value at the key.
    pub fn get(&self, key: &PropertiesKey) -> Option<&str>
        ensures { option_copied result ≡ value_at_key (others_of self.now) (key_of key.now) }
    {
        // A clause of `len` is that the keys ascend, so that the section found is the only one of its name.
        let _count = self.sections.len();
        match self.sections.get(key.section()) {
            Some(properties) => property_value(
                properties,
                key.property_name(),
                key.sub_property_name(),
            ),
            None => None,
        }
    }
}

// The value stands at the names of the property and of the sub-property, in place of the one before.
fn insert_property(
    properties: &mut BTreeMap<String, SubProperties>,
    property: String,
    sub: Option<String>,
    value: String,
) -> Mem<()>
    ensures ok { OnOk result (properties_in properties.new ≡ put_sub_at (properties_in properties.old) (string_bytes property) (option_map string_bytes sub) (string_bytes value)) }
    ensures err { OnErr result (properties_in properties.new ≡ properties_in properties.old) }
    ensures ordered { IsStrictlySortedBy text_cmp (map (λ e. e.0) (properties_in properties.old)) }
{
    match properties.get_mut(property.as_str()) {
        Some(subs) => insert_sub(subs, sub, value),
        None => {
            let mut subs = BTreeMap::new(*value.allocator());
            insert_sub(&mut subs, sub, value)?;
            properties.insert(property, subs)?;
            Ok(())
        }
    }
}

/// The value stands at the name of the sub-property, in place of the one before.
pub fn insert_sub(subs: &mut SubProperties, name: Option<String>, value: String) -> Mem<()>
    ensures ok { OnOk result (subs_in subs.new ≡ put_named_sub (subs_in subs.old) (option_map string_bytes name) (string_bytes value)) }
    ensures err { OnErr result (subs_in subs.new ≡ subs_in subs.old) }
{
    subs.insert(name, value)?;
    Ok(())
}

// The value at the names of the property and of the sub-property.
fn property_value<'a>(
    properties: &'a BTreeMap<String, SubProperties>,
    property: &str,
    sub: &Option<String>,
) -> Option<&'a str>
    ensures value { option_copied result ≡ sub_at (properties_in properties.now) property.now (option_map string_bytes sub.now) }
    ensures ordered { IsStrictlySortedBy text_cmp (map (λ e. e.0) (properties_in properties.now)) }
{
    let _count = properties.len();
    match properties.get(property) {
        Some(subs) => sub_value(subs, sub),
        None => None,
    }
}

// The value at the name of the sub-property.
fn sub_value<'a>(subs: &'a SubProperties, name: &Option<String>) -> Option<&'a str>
    ensures { option_copied result ≡ named_sub (subs_in subs.now) (option_map string_bytes name.now) }
{
    match subs.get(name) {
        Some(value) => Some(value.as_str()),
        None => None,
    }
}

impl fmt::Debug for Properties {
    ghost use Rattle.std.specs.Prelude.{Some, length};
    ghost use Rattle.env_config.specs.Properties.{others_shown, sections_in};

    ghost debug_output = { λ properties. Some (others_shown (length (sections_in properties))) };

    fn fmt<W: fmt::Write>(&self, f: &mut fmt::Formatter<W>) -> fmt::Result {
        let count = self.sections.len();
        write!(f, "Properties({count} sections)")
    }
}

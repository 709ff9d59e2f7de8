ghost use Rattle.std.specs.Prelude.{◌≡◌, ℕ, List, IfOk, OnOk, map};
ghost use Rattle.env_config.specs.Texts.{nothing_named, put_named, value_under, words_of};

use crate::texts::Texts;
use smithy_core::Mem;
use std::alloc::Global;
use std::collections::BTreeMap;
use std::marker::Model;
use std::mem;

/// The raw sections of a text: their properties by the texts between their brackets, and these texts in the order of
/// their first appearance. They are borrowed, since a section may have very many spellings.
#[derive(Drop)]
pub struct RawSections<'t> {
    names: Vec<&'t str>,
    properties: BTreeMap<&'t str, Texts>,
}

impl<'t> Model for RawSections<'t> {
    ghost use Rattle.std.specs.Prelude.{ℕ, List, map};
    ghost use Rattle.env_config.specs.Texts.{Named, words_of};

    ghost Value = { Named (List (List ℕ × List ℕ)) };

    ghost view = { λ raw. record { names = map (λ name. name.now) raw.names.items; values = words_of raw.properties.entries } };
}

impl<'t> RawSections<'t> {
    /// No sections.
    pub fn new(alloc: Global) -> RawSections<'t>
        ensures { result ≡ nothing_named }
    {
        RawSections {
            names: Vec::new(alloc),
            properties: BTreeMap::new(alloc),
        }
    }

    /// Puts the properties of the section, and answers those before. A new section comes last.
    pub fn replace(&mut self, name: &'t str, properties: Texts) -> Mem<Option<Texts>>
        ensures now { OnOk result (self.new ≡ put_named self.old name.now properties) }
        ensures before { IfOk result (λ before. before ≡ value_under self.old.values name.now) }
    {
        let before = self.properties.insert(name, properties)?;
        if before.is_some() {
            return Ok(before);
        }
        self.names.push(name)?;
        Ok(before)
    }

    /// Takes the properties of the section, and leaves these in their place. Where there is no such section nothing is
    /// changed.
    pub fn take(&mut self, name: &str, left: Texts) -> Option<Texts>
        ensures before { result ≡ value_under self.old.values name.now }
        ensures later { (value : List (List ℕ × List ℕ)) → put_named self.new name.now value ≡ put_named self.old name.now value }
    {
        let properties = self.properties.get_mut(name)?;
        Some(mem::replace(properties, left))
    }

    /// The names in the order of their first appearance, and the properties by them.
    pub fn into_parts(self) -> (Vec<&'t str>, BTreeMap<&'t str, Texts>)
        ensures names { map (λ name. name.now) result.0.items ≡ self.entry.names }
        ensures values { words_of result.1.entries ≡ self.entry.values }
    {
        (self.names, self.properties)
    }
}

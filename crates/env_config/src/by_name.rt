ghost use Rattle.std.specs.Prelude.{◌≡◌, ◌==◌, IfOk, OnOk, length, map, option_copied};
ghost use Rattle.std.specs.String.{string_bytes};
ghost use Rattle.env_config.specs.Texts.{CopiedUnder, nothing_named, put_named, value_under};
ghost use Rattle.std.specs.List.{AllZip};

use smithy_core::Mem;
use std::alloc::Global;
use std::collections::BTreeMap;
use std::marker::Model;
use std::mem;

/// Values by their names, and the names in the order of their first appearance.
#[derive(Drop)]
pub struct ByName<V> {
    names: Vec<String>,
    values: BTreeMap<String, V>,
}

impl<V> Model for ByName<V> {
    ghost use Rattle.std.specs.Prelude.{map};
    ghost use Rattle.std.specs.String.{string_bytes};
    ghost use Rattle.env_config.specs.Texts.{Named};

    ghost Value = { Named V };

    ghost view = { λ b. record { names = map string_bytes b.names.items; values = map (λ e. (string_bytes e.0, e.1)) b.values.entries } };
}

impl<V: Clone + Drop> ByName<V> {
    /// Equal names with copies of the values.
    pub fn try_clone(&self) -> Mem<ByName<V>>
        ensures names { IfOk result (λ copy. copy.names ≡ self.now.names) }
        ensures values { IfOk result (λ copy. AllZip (CopiedUnder V.is_clone) self.now.values copy.values) }
    {
        Ok(ByName {
            names: self.names.clone()?,
            values: self.values.clone()?,
        })
    }
}

// Names with equal values are equal, in whatever order they came.
impl<V: PartialEq> PartialEq for ByName<V> {
    ghost use Rattle.std.proofs.Common.{rules};
    ghost use Rattle.std.specs.Cmp.{and_per, on_per, partial_equiv_from_equiv};
    ghost use Rattle.std.specs.Cmp.Lexicographic.{lists_per, nat_list_eq_equiv};
    ghost use Rattle.env_config.specs.Texts.{same_values};

    ghost eq = { λ a b. same_values V.eq a.values b.values };

    ghost laws = { on_per (λ named. named.values) (lists_per (and_per (on_per (λ e. e.0) (partial_equiv_from_equiv nat_list_eq_equiv)) (on_per (λ e. e.1) V.laws))) };

    fn eq(&self, other: &ByName<V>) -> bool {
        self.values == other.values
    }
}

impl<V: Eq> Eq for ByName<V> {
    ghost use Rattle.std.specs.Cmp.{and_equiv, on_equiv};
    ghost use Rattle.std.specs.Cmp.Lexicographic.{lists_equiv, nat_list_eq_equiv};

    ghost laws = { on_equiv (λ named. named.values) (lists_equiv (and_equiv (on_equiv (λ e. e.0) nat_list_eq_equiv) (on_equiv (λ e. e.1) V.Eq.laws))) };
}

impl<V: Drop> ByName<V> {
    /// No names.
    pub fn new(alloc: Global) -> ByName<V>
        ensures { result ≡ nothing_named }
    {
        ByName {
            names: Vec::new(alloc),
            values: BTreeMap::new(alloc),
        }
    }

    /// Puts the value under the name, and answers the one before. A new name comes last.
    pub fn replace(&mut self, name: &str, value: V) -> Mem<Option<V>>
        ensures now { OnOk result (self.new ≡ put_named self.old name.now value) }
        ensures before { IfOk result (λ before. before ≡ value_under self.old.values name.now) }
    {
        let alloc = *self.names.allocator();
        let before = self.values.insert(String::from_str(alloc, name)?, value)?;
        if before.is_some() {
            return Ok(before);
        }
        self.names.push(String::from_str(alloc, name)?)?;
        Ok(before)
    }

    /// Takes the value under the name, and leaves this one in its place. Where there is none nothing is changed.
    pub fn take(&mut self, name: &str, left: V) -> Option<V>
        ensures before { result ≡ value_under self.old.values name.now }
        ensures later { (value : V) → put_named self.new name.now value ≡ put_named self.old name.now value }
    {
        let value = self.values.get_mut(name)?;
        Some(mem::replace(value, left))
    }

    /// The names in the order of their first appearance.
    pub fn names(&self) -> &[String]
        ensures { map string_bytes result.now ≡ self.now.names }
    {
        self.names.as_slice()
    }

    /// The value under the name.
    pub fn get(&self, name: &str) -> Option<&V>
        ensures { option_copied result ≡ value_under self.now.values name.now }
    {
        self.values.get(name)
    }

    /// Whether there are no names.
    pub fn is_empty(&self) -> bool
        ensures { result ≡ (length self.now.names == 0) }
    {
        self.names.is_empty()
    }
}

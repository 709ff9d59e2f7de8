ghost use Rattle.std.specs.Prelude.{◌≡◌, ◌||◌, OnOk, IfOk, Some};
ghost use Rattle.std.specs.String.{string_bytes};
ghost use Rattle.env_config.specs.Latest.{group_taken, no_latest, is_beaten, put_latest, put_placed, taken_values, with_place, without_places};
ghost use Rattle.env_config.specs.LatestView.{placed_of};
ghost use Rattle.env_config.specs.Sections.{heading_of, is_profile_default};
ghost use Rattle.env_config.specs.Texts.{value_under};

use crate::heading::{Heading, HeadingForm};
use crate::source::EnvConfigFileKind;
use crate::texts::Texts;
use smithy_core::Mem;
use std::alloc::Global;
use std::collections::BTreeMap;
use std::marker::Model;

/// The values of a profile's keys in a file.
///
/// A profile has many sections where its heading is spelled with different blanks. They are merged in the order of their
/// first appearance, so of the values of a key the one stays whose section has the last place in this order. Of each
/// section only the place is kept, so that a heading takes little more than its text.
#[derive(Drop)]
pub struct Latest<'t> {
    places: BTreeMap<&'t str, usize>,
    bare: BTreeMap<String, (usize, String)>,
    prefixed: BTreeMap<String, (usize, String)>,
    overridden: bool,
}

impl<'t> Model for Latest<'t> {
    ghost use Rattle.env_config.specs.Latest.{Latest as Seen};
    ghost use Rattle.env_config.specs.LatestView.{placed_of};
    ghost use Rattle.env_config.specs.Texts.{words_of};

    ghost Value = { Seen };

    ghost view = { λ l. record { places = words_of l.places.entries; bare = placed_of l.bare.entries; prefixed = placed_of l.prefixed.entries; overridden = l.overridden } };
}

impl<'t> Latest<'t> {
    /// No sections.
    pub fn new(alloc: Global) -> Latest<'t>
        ensures { result ≡ no_latest }
    {
        Latest {
            places: BTreeMap::new(alloc),
            bare: BTreeMap::new(alloc),
            prefixed: BTreeMap::new(alloc),
            overridden: false,
        }
    }

    /// The place of the section with this text between its brackets. A new one comes last.
    pub fn place_of(&mut self, name: &'t str) -> Mem<usize>
        ensures now { OnOk result (self.new ≡ with_place self.old name.now) }
        ensures place { IfOk result (λ place. value_under self.new.places name.now ≡ Some place) }
    {
        if let Some(place) = self.places.get(name) {
            return Ok(*place);
        }
        let place = self.places.len();
        self.places.insert(name, place)?;
        self.overridden = is_overridden(self.overridden, name);
        Ok(place)
    }

    /// The value stands at the key, where no later section has one: among the sections with a prefix, or among those without.
    pub fn put(&mut self, form: HeadingForm, place: usize, key: String, value: String) -> Mem<()>
        ensures { OnOk result (self.new ≡ put_latest self.old form place (string_bytes key) (string_bytes value)) }
    {
        match form {
            HeadingForm::Bare => put_placed(&mut self.bare, place, key, value),
            HeadingForm::Prefixed => put_placed(&mut self.prefixed, place, key, value),
        }
    }

    /// The values of the profile that are taken from a file of this kind, or nothing where none of its sections is.
    pub fn into_taken(
        self,
        alloc: Global,
        kind: EnvConfigFileKind,
        profile: &str,
    ) -> Mem<Option<Texts>>
        ensures { IfOk result (λ taken. taken ≡ taken_values self.entry kind profile.now) }
    {
        match taken_group(kind, self.overridden, profile) {
            Some(HeadingForm::Prefixed) => Ok(Some(without_places(alloc, self.prefixed)?)),
            Some(HeadingForm::Bare) => Ok(Some(without_places(alloc, self.bare)?)),
            None => Ok(None),
        }
    }
}

// Whether `[profile default]` is there, or was there before.
fn is_overridden(before: bool, name: &str) -> bool
    ensures { result ≡ (before || is_profile_default (heading_of name.now).prefix (heading_of name.now).name) }
{
    before || Heading::of(name).is_profile_default()
}

fn put_placed(
    values: &mut BTreeMap<String, (usize, String)>,
    place: usize,
    key: String,
    value: String,
) -> Mem<()>
    ensures { OnOk result (placed_of values.new.entries ≡ put_placed (placed_of values.old.entries) place (string_bytes key) (string_bytes value)) }
{
    if is_beaten(values, place, key.as_str()) {
        return Ok(());
    }
    values.insert(key, (place, value))?;
    Ok(())
}

// Whether a later section has a value at the key.
fn is_beaten(values: &BTreeMap<String, (usize, String)>, place: usize, key: &str) -> bool
    ensures { result ≡ is_beaten (value_under (placed_of values.now.entries) key.now) place }
{
    match values.get(key) {
        Some((before, _)) => place < *before,
        None => false,
    }
}

// The form of the headings of the profile whose sections are taken; nothing where none is taken.
fn taken_group(kind: EnvConfigFileKind, overridden: bool, profile: &str) -> Option<HeadingForm>
    ensures { result ≡ group_taken kind overridden profile.now }
{
    let bare = Heading {
        prefix: None,
        name: profile,
    };
    if bare.is_taken_from(kind, overridden) {
        return Some(HeadingForm::Bare);
    }
    let prefixed = Heading {
        prefix: Some("profile"),
        name: profile,
    };
    if prefixed.is_taken_from(kind, overridden) {
        return Some(HeadingForm::Prefixed);
    }
    None
}

// The values by their keys.
fn without_places(alloc: Global, values: BTreeMap<String, (usize, String)>) -> Mem<Texts>
    ensures { IfOk result (λ texts. texts ≡ without_places (placed_of values.entries)) }
{
    let mut texts = Texts::new(alloc);
    for (key, (_, value)) in values {
        texts.put(key, value)?;
    }
    Ok(texts)
}

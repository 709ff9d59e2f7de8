ghost use Rattle.std.specs.Prelude.{◌≡◌, ◌≤◌, ℕ, List, [], ◌∷◌, length, option_map, OnOk, IfOk, IfSome, if◌then◌else◌};
ghost use Rattle.std.specs.String.{string_bytes};
ghost use Rattle.env_config.specs.Kept.{keeps_of};
ghost use Rattle.env_config.specs.Texts.{EachValue, named_as, put};
ghost use Rattle.env_config.specs.Sections.{Key, is_identifier, merged_into, put_identifiers, put_others, put_sub, put_subs, section_properties, value_pieces};
ghost use Rattle.env_config.specs.Properties.{Subs, others_of, properties_in, subs_in};
ghost use Rattle.env_config.specs.Section.{IsKeyed, IsKeyedSection, section_of};
ghost use Rattle.env_config.specs.SectionProperties.{property_values};
ghost use Rattle.env_config.specs.Merge.{HoldsProperty, HoldsSection, pieces_left, length_left};

use crate::by_name::ByName;
use crate::heading::is_identifier;
use crate::kept::Kept;
use crate::line::trim;
use crate::properties::{Properties, SubProperties, insert_sub};
use crate::properties_key::SectionNames;
use crate::section::{Section, SectionKind};
use crate::section_properties::SectionProperties;
use crate::texts::Texts;
use smithy_core::Mem;
use std::alloc::Global;
use std::collections::BTreeMap;

/// Merges a raw section into the profile or the session of this name.
pub fn merge_into<S: SectionKind>(
    alloc: Global,
    sections: &mut ByName<S>,
    name: &str,
    pairs: Texts,
) -> Mem<()>
    ensures merged { OnOk result (named_as (λ s. section_of (S.held s)) sections.new ≡ merged_into (named_as (λ s. section_of (S.held s)) sections.old) name.now pairs) }
    ensures keys { EachValue (λ s. IsKeyedSection (S.held s)) sections.old.values → OnOk result (EachValue (λ s. IsKeyedSection (S.held s)) sections.new.values) }
{
    let empty = S::of_section(Section::new(String::new(alloc), SectionProperties::new(alloc)));
    let before = sections.take(name, empty);
    let properties = merged_properties(alloc, before, pairs)?;
    let section = Section::new(String::from_str(alloc, name)?, properties);
    sections.replace(name, S::of_section(section))?;
    Ok(())
}

// The properties of the section before with those of the raw section.
fn merged_properties<S: SectionKind>(
    alloc: Global,
    before: Option<S>,
    pairs: Texts,
) -> Mem<SectionProperties>
    ensures values { IfOk result (λ properties. property_values properties ≡ put_identifiers (section_properties (option_map (λ s. section_of (S.held s)) before)) pairs) }
    ensures keys { IfSome before (λ s. IsKeyedSection (S.held s)) → IfOk result IsKeyed }
{
    let Some(before) = before else {
        return new_properties(alloc, pairs);
    };
    let mut properties = before.into_section().into_properties();
    put_pairs(&mut properties, pairs)?;
    Ok(properties)
}

// The properties of a raw section. For the most part all its keys are identifiers, and it is taken as it is.
#[tactic(auto, using(crate::proofs::SectionLemmas::values_own, crate::proofs::SectionLemmas::keyed_own))]
fn new_properties(alloc: Global, pairs: Texts) -> Mem<SectionProperties>
    ensures values { IfOk result (λ properties. property_values properties ≡ put_identifiers [] pairs) }
    ensures keys { IfOk result IsKeyed }
{
    if pairs.has_identifiers() {
        return Ok(SectionProperties::read(pairs));
    }
    let mut properties = SectionProperties::new(alloc);
    put_pairs(&mut properties, pairs)?;
    Ok(properties)
}

// Puts the pairs whose keys are identifiers.
fn put_pairs(properties: &mut SectionProperties, mut pairs: Texts) -> Mem<()>
    ensures keys { IsKeyed properties.old → OnOk result (IsKeyed properties.new) }
    ensures values { OnOk result (property_values properties.new ≡ put_identifiers (property_values properties.old) pairs) }
{
    while let Some((key, value)) = pairs.take_first()? {
        put_pair(properties, key, value)?;
    }
    Ok(())
}

fn put_pair(properties: &mut SectionProperties, key: String, value: String) -> Mem<()>
    ensures keys { IsKeyed properties.old → OnOk result (IsKeyed properties.new) }
    ensures values { OnOk result (property_values properties.new ≡ (if is_identifier (string_bytes key) then put (property_values properties.old) (string_bytes key) (string_bytes value) else property_values properties.old)) }
{
    if is_identifier(key.as_str()) {
        properties.put(key, value)?;
    }
    Ok(())
}

/// Puts the sub-properties of a raw section with another prefix, as far as they are kept.
pub fn merge_others(
    alloc: Global,
    kept: &Kept<'_>,
    others: &mut Properties,
    prefix: &str,
    name: &str,
    pairs: Texts,
) -> Mem<()>
    ensures { OnOk result (others_of others.new ≡ put_others (keeps_of kept.now) (others_of others.old) prefix.now name.now pairs) }
{
    let prefix = String::from_str(alloc, prefix)?;
    let section = SectionNames::new(prefix, String::from_str(alloc, name)?);
    others.merge(alloc, kept, section, pairs)
}

/// Puts the sub-properties of a raw section among the properties of its section, as far as they are kept.
pub fn put_properties(
    alloc: Global,
    kept: &Kept<'_>,
    properties: &mut BTreeMap<String, SubProperties>,
    mut pairs: Texts,
) -> Mem<()>
    ensures { (whole : List (List ℕ × Subs) → List (Key × List ℕ)) (prefix name : List ℕ) → HoldsSection whole prefix name
        → OnOk result (whole (properties_in properties.new) ≡ put_others (keeps_of kept.now) (whole (properties_in properties.old)) prefix name pairs) }
{
    while let Some((key, value)) = pairs.take_first()? {
        put_key(alloc, kept, properties, key, value.as_str())?;
    }
    Ok(())
}

fn put_key(
    alloc: Global,
    kept: &Kept<'_>,
    properties: &mut BTreeMap<String, SubProperties>,
    key: String,
    value: &str,
) -> Mem<()>
    ensures { (whole : List (List ℕ × Subs) → List (Key × List ℕ)) (prefix name : List ℕ) → HoldsSection whole prefix name
        → OnOk result (whole (properties_in properties.new) ≡ (if is_identifier (string_bytes key) then put_subs (keeps_of kept.now) (whole (properties_in properties.old)) prefix name (string_bytes key) (value_pieces value.now) else whole (properties_in properties.old))) }
{
    if !is_identifier(key.as_str()) {
        return Ok(());
    }
    put_property(alloc, kept, properties, key, value)
}

fn put_property(
    alloc: Global,
    kept: &Kept<'_>,
    properties: &mut BTreeMap<String, SubProperties>,
    key: String,
    value: &str,
) -> Mem<()>
    ensures { (whole : List (List ℕ × Subs) → List (Key × List ℕ)) (prefix name : List ℕ) → HoldsSection whole prefix name
        → OnOk result (whole (properties_in properties.new) ≡ put_subs (keeps_of kept.now) (whole (properties_in properties.old)) prefix name (string_bytes key) (value_pieces value.now)) }
{
    match properties.get_mut(key.as_str()) {
        Some(subs) => put_pieces(alloc, kept, subs, value),
        None => {
            let mut subs = BTreeMap::new(alloc);
            put_pieces(alloc, kept, &mut subs, value)?;
            if subs.is_empty() {
                return Ok(());
            }
            properties.insert(key, subs)?;
            Ok(())
        }
    }
}

fn put_pieces(alloc: Global, kept: &Kept<'_>, subs: &mut SubProperties, value: &str) -> Mem<()>
    ensures { (whole : Subs → List (Key × List ℕ)) (prefix name key : List ℕ) → HoldsProperty whole prefix name key
        → OnOk result (whole (subs_in subs.new) ≡ put_subs (keeps_of kept.now) (whole (subs_in subs.old)) prefix name key (value_pieces value.now)) }
{
    let mut rest = Some(value);
    while let Some(text) = rest {
        let (piece, left) = cut_piece(text);
        put_piece(alloc, kept, subs, piece)?;
        rest = left;
    }
    Ok(())
}

// The first piece, and what stands after its LF.
fn cut_piece(text: &str) -> (&str, Option<&str>)
    ensures pieces { value_pieces text.now ≡ result.0.now ∷ pieces_left result.1 }
    ensures shorter { length_left result.1 ≤ length text.now }
{
    match text.split_once('\n') {
        Some((piece, rest)) => (piece, Some(rest)),
        None => (text, None),
    }
}

fn put_piece(alloc: Global, kept: &Kept<'_>, subs: &mut SubProperties, piece: &str) -> Mem<()>
    ensures { (whole : Subs → List (Key × List ℕ)) (prefix name key : List ℕ) → HoldsProperty whole prefix name key
        → OnOk result (whole (subs_in subs.new) ≡ put_sub (keeps_of kept.now) (whole (subs_in subs.old)) prefix name key piece.now) }
{
    let Some((sub, value)) = piece.split_once('=') else {
        return Ok(());
    };
    let sub = trim(sub);
    if !kept.has_sub_property(sub) {
        return Ok(());
    }
    let sub = String::from_str(alloc, sub)?;
    insert_sub(subs, Some(sub), String::from_str(alloc, trim(value))?)
}

use crate::texts::{given_text, printed};
use env_config::{PropertiesKey, PropertiesKeyBuilder};
use smithy_core::Mem;
use std::alloc::Global;

// What a copy of the key prints that a copy of the builder makes, or the fault and what that prints.
pub fn answer(alloc: Global, key: &str) -> Mem<String> {
    match builder_of(alloc, key)?.try_clone()?.build() {
        Ok(key) => printed(alloc, key.try_clone()),
        Err(fault) => format!(in alloc; "{fault:?}: {fault}"),
    }
}

// The builder of the key `SECTION NAME PROPERTY SUB-PROPERTY`, `-` for a part that it isn't given.
pub fn builder_of(alloc: Global, word: &str) -> Mem<PropertiesKeyBuilder> {
    let mut builder = PropertiesKey::builder();
    for (place, part) in word.split(' ').enumerate() {
        if let Some(part) = given_text(alloc, part)? {
            builder = with_part(builder, place, part);
        }
    }
    Ok(builder)
}

fn with_part(builder: PropertiesKeyBuilder, place: usize, part: String) -> PropertiesKeyBuilder {
    match place {
        0 => builder.section_key(part),
        1 => builder.section_name(part),
        2 => builder.property_name(part),
        _ => builder.sub_property_name(part),
    }
}

//! What `Debug` shows of values that may hold secrets.
use crate::files::{file_of, sections_of};
use crate::loading::stepped;
use crate::profiles::fault_text;
use crate::sections::property_of;
use crate::texts::{debugged, word};
use smithy_core::Mem;
use std::alloc::Global;

// The property, the file, the values of other sections, the builder that the steps give, or the files that it builds.
pub fn answer(alloc: Global, call: &str, words: &[&str]) -> Mem<String> {
    let first = word(words, 0);
    match call {
        "property" => debugged(alloc, property_of(alloc, first, word(words, 1))),
        "file" => debugged(alloc, file_of(alloc, first)),
        "builder" => debugged(alloc, stepped(alloc, first)),
        "files" => debugged(alloc, Ok(stepped(alloc, first)?.build())),
        _ => others(alloc, words),
    }
}

fn others(alloc: Global, files: &[&str]) -> Mem<String> {
    match &sections_of(alloc, "default", files) {
        Ok(sections) => debugged(alloc, sections.other_sections().try_clone()),
        Err(fault) => fault_text(alloc, fault),
    }
}

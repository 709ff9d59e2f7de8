//! Header maps that are merged.
use crate::parts::debugged;
use http_header::{HeaderMap, HeaderName, HeaderValue};
use smithy_core::Mem;
use smithy_http::append_merge_header_maps;
use std::alloc::Global;
use tool_case_lines::number;

/// The pairs of two maps, `merge`, or how many names a map of the names `n0`, `n1` and so on then has.
pub fn answer(alloc: Global, call: &str, left: &str, right: &str) -> Mem<String> {
    let left = match call {
        "merge" => map_of(alloc, left),
        _ => names_to(alloc, number(left)),
    };
    match (left, map_of(alloc, right)) {
        (Some(left), Some(right)) => merged(alloc, call, left, right),
        _ => String::from_str(alloc, "no map"),
    }
}

fn merged(alloc: Global, call: &str, left: HeaderMap, right: HeaderMap) -> Mem<String> {
    match append_merge_header_maps(alloc, left, right) {
        Ok(map) if call == "merge" => pairs(alloc, &map),
        Ok(map) => map.keys_len().to_string(alloc),
        Err(fault) => debugged(alloc, &fault),
    }
}

fn pairs(alloc: Global, map: &HeaderMap) -> Mem<String> {
    let mut text = String::new(alloc);
    for (name, value) in map.iter() {
        let (name, value) = (name.as_str(), value.to_str().unwrap_or("?"));
        write!(text, "{name}={value};")?;
    }
    Ok(text)
}

// A map of so many names.
fn names_to(alloc: Global, count: i64) -> Option<HeaderMap> {
    let mut map = HeaderMap::new(alloc);
    for n in 0..count {
        let name = format!(in alloc; "n{n}").ok()?;
        add(alloc, &mut map, name.as_str(), "a")?;
    }
    Some(map)
}

// The map of these pairs.
fn map_of(alloc: Global, pairs: &str) -> Option<HeaderMap> {
    let mut map = HeaderMap::new(alloc);
    for pair in pairs.split(' ') {
        if let Some((name, value)) = pair.split_once('=') {
            add(alloc, &mut map, name, value)?;
        }
    }
    Some(map)
}

fn add(alloc: Global, map: &mut HeaderMap, name: &str, value: &str) -> Option<()> {
    let value = HeaderValue::from_bytes(alloc, value.as_bytes()).ok()?;
    let name = HeaderName::from_bytes(alloc, name.as_bytes()).ok()?;
    map.append(name, value).ok()?;
    Some(())
}

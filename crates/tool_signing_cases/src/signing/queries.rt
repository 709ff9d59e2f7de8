//! Queries and targets.
use crate::signing::texts::text_or_length;
use http_uri::Uri;
use smithy_core::Mem;
use smithy_http::query::Writer;
use smithy_http::{QueryWriter, UriFault};
use std::alloc::Global;
use tool_case_lines::{shown, with_repeats};

/// The answer of a call on a target and the steps of its writer.
pub fn answer(alloc: Global, call: &str, target: &str, steps: &[&str]) -> Mem<String> {
    match call {
        "write" => write(alloc, target, steps),
        _ => shown(alloc, built(alloc, call, target, steps)),
    }
}

// The front with each piece written to it, `k=v` as a pair and another as a value.
fn write(alloc: Global, front: &str, pieces: &[&str]) -> Mem<String> {
    let mut text = String::from_str(alloc, front)?;
    let mut writer = Writer::new(&mut text);
    for piece in pieces {
        match piece.split_once('=') {
            Some((k, v)) => writer.push_kv(k, v)?,
            None => writer.push_v(piece)?,
        }
    }
    Ok(text)
}

/// The target after these steps, by a copy of the writer: as a URI, or its length, its query or its text.
pub fn built(alloc: Global, call: &str, target: &str, steps: &[&str]) -> Result<String, UriFault> {
    match writer_of(alloc, target) {
        Ok(writer) => built_by(alloc, call, with_steps(alloc, writer, steps)?.try_clone()?),
        Err(fault) => Err(fault),
    }
}

fn built_by(alloc: Global, call: &str, writer: QueryWriter) -> Result<String, UriFault> {
    match call {
        "target_query" => writer.build_query(),
        "target_text" => writer.build_text(),
        _ => {
            let text = writer.build_uri()?.to_string(alloc)?;
            Ok(text_or_length(alloc, call, text)?)
        }
    }
}

fn with_steps(alloc: Global, writer: QueryWriter, steps: &[&str]) -> Mem<QueryWriter> {
    let mut writer = writer;
    take_steps(alloc, &mut writer, steps)?;
    Ok(writer)
}

// After `uri ` the target is read as a URI, and isn't tested.
fn writer_of(alloc: Global, target: &str) -> Result<QueryWriter, UriFault> {
    match target.strip_prefix("uri ") {
        Some(text) => {
            let uri = Uri::from_str(alloc, text)?;
            Ok(QueryWriter::new(alloc, &uri)?)
        }
        None => QueryWriter::new_from_string(alloc, target),
    }
}

fn take_steps(alloc: Global, writer: &mut QueryWriter, steps: &[&str]) -> Mem<()> {
    for step in steps {
        take_step(alloc, writer, step)?;
    }
    Ok(())
}

// One step: `clear`, `k=v`, `k:v` for what is escaped already, or `k=v` with repeats after `long `.
fn take_step(alloc: Global, writer: &mut QueryWriter, step: &str) -> Mem<()> {
    if let Some(pair) = step.strip_prefix("long ") {
        let pair = with_repeats(alloc, pair)?;
        return insert(writer, pair.as_str());
    }
    insert(writer, step)
}

fn insert(writer: &mut QueryWriter, step: &str) -> Mem<()> {
    if let Some((k, v)) = step.split_once('=') {
        return writer.insert(k, v);
    }
    if let Some((k, v)) = step.split_once(':') {
        return writer.insert_encoded(k, v);
    }
    writer.clear_params();
    Ok(())
}

//! Tells how long texts are.
use crate::chunks::bodies::unsigned;
use crate::parts::{number_of, part_or_none};
use aws_chunked::AwsChunkedBodyOptions;
use smithy_core::Mem;
use std::alloc::Global;
use tool_case_lines::has_part;

/// The options of the parts `length N`, `size N`, `signed` and `declared N,N..`.
pub fn options_of(alloc: Global, parts: &[&str]) -> Mem<AwsChunkedBodyOptions> {
    let mut options = AwsChunkedBodyOptions::new(number_of(parts, "length", 0), Vec::new(alloc));
    for length in part_or_none(parts, "declared").split(',') {
        if let Ok(length) = length.parse() {
            options = options.with_trailer_len(length)?;
        }
    }
    let options = options.signed_chunked_encoding(has_part(parts, "signed"));
    match part_or_none(parts, "size").parse() {
        Ok(size) if 1 <= size && size <= 4_294_967_295 => Ok(options.with_chunk_size(size)),
        _ => Ok(options),
    }
}

/// The length of the whole text by the declared lengths, or of that of a body that passes its data on as it comes.
pub fn answer(alloc: Global, call: &str, parts: &[&str]) -> Mem<String> {
    let length = match call {
        "length" => options_of(alloc, parts)?.checked_encoded_length(),
        _ => unsigned(alloc, parts)?.data_size_hint(),
    };
    match length {
        Some(length) => length.to_string(alloc),
        None => String::from_str(alloc, "none"),
    }
}

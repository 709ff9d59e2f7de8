//! The replies that lines spell.
ghost use Rattle.std.specs.Prelude.{◌≡◌, IfOk, map, option_map};
ghost use Rattle.std.specs.String.{string_bytes};
ghost use Rattle.job_text.specs.OperationJob.{reply_parts};
ghost use Rattle.operation_run.specs.Reply.{metadata_texts, reply_texts};
ghost use Rattle.operation_program.specs.Attempting.{code_error, date_headers, listed_reply};

use job_text::ReplyLine;
use operation_run::Reply;
use smithy_core::{ErrorMetadata, Headers, HttpResponse, Mem};
use std::alloc::Global;

/// The replies that the lines spell, in order.
pub fn replies_of(alloc: Global, lines: &[ReplyLine]) -> Mem<Vec<Reply>>
    ensures { IfOk result (λ replies. map reply_texts replies.items ≡ map listed_reply (map reply_parts lines.now)) }
{
    let mut replies = Vec::new(alloc);
    for line in lines {
        replies.push(reply_of(alloc, line)?)?;
    }
    Ok(replies)
}

// The reply that a line spells.
fn reply_of(alloc: Global, line: &ReplyLine) -> Mem<Reply>
    ensures { IfOk result (λ reply. reply_texts reply ≡ listed_reply (reply_parts line.now)) }
{
    Ok(Reply {
        response: HttpResponse {
            status: line.status,
            headers: headers_of(alloc, &line.date)?,
            skew: None,
        },
        error: error_of(&line.code)?,
    })
}

// The header of a date, where there is one.
fn headers_of(alloc: Global, date: &Option<String>) -> Mem<Headers>
    ensures { IfOk result (λ headers. headers ≡ date_headers (option_map string_bytes date.now)) }
{
    let mut headers = Headers::new(alloc);
    if let Some(date) = date {
        headers.append("date", date.as_str())?;
    }
    Ok(headers)
}

// The error of a code, where there is one.
fn error_of(code: &Option<String>) -> Mem<Option<ErrorMetadata>>
    ensures { IfOk result (λ error. option_map metadata_texts error ≡ code_error (option_map string_bytes code.now)) }
{
    match code {
        Some(code) => Ok(Some(ErrorMetadata {
            code: Some(code.clone()?),
            message: None,
        })),
        None => Ok(None),
    }
}

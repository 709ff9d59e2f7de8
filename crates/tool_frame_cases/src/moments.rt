use crate::shown::{Shown, debugged, quoted};
use crate::words::moment_of;
use smithy_core::{Civil, DateTime, Format, Mem, civil};
use std::alloc::Global;
use tool_case_lines::{number, shown};

pub fn answer(alloc: Global, call: &str, word: &str) -> Mem<String> {
    let moment = moment_of(word);
    match call {
        "from_millis" => DateTime::from_millis(number(word)).shown(alloc),
        "to_millis" => to_millis(alloc, moment),
        "date_time" => shown(alloc, moment.fmt(alloc, Format::DateTime)),
        "http_date" => shown(alloc, moment.fmt(alloc, Format::HttpDate)),
        "epoch_seconds" => shown(alloc, moment.fmt(alloc, Format::EpochSeconds)),
        _ => of_civil(alloc, call, civil(moment)),
    }
}

fn to_millis(alloc: Global, moment: DateTime) -> Mem<String> {
    match moment.to_millis() {
        Ok(millis) => millis.to_string(alloc),
        Err(fault) => debugged(alloc, &fault),
    }
}

fn of_civil(alloc: Global, call: &str, civil: Option<Civil>) -> Mem<String> {
    match civil {
        Some(civil) => date_or_stamp(alloc, call, civil),
        None => String::from_str(alloc, "none"),
    }
}

fn date_or_stamp(alloc: Global, call: &str, civil: Civil) -> Mem<String> {
    match call {
        "date" => quoted(alloc, civil.date().as_slice()),
        "stamp" => quoted(alloc, civil.stamp().as_slice()),
        _ => civil.stamp_text(alloc),
    }
}

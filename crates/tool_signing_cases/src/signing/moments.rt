use smithy_core::Moment;
use tool_case_lines::number;

/// The moment of `SECONDS` or `SECONDS NANOSECONDS`.
pub fn moment_of(text: &str) -> Moment {
    let (secs, nanos) = text.split_once(' ').unwrap_or((text, "0"));
    let nanos: u32 = nanos.parse().unwrap_or(0);
    Moment::new(number(secs), nanos.min(999_999_999))
}

//! The service that a host of AWS names.
ghost use Rattle.std.specs.Prelude.{◌≡◌, ◌≤◌, ◌==◌, Some, IfOk, option_copied};
ghost use Rattle.std.specs.List.{list_all, list_any, slice_split};
ghost use Rattle.std.specs.String.{string_bytes};
ghost use Rattle.job_text.specs.Lines.{colon};
ghost use Rattle.awsign_run.specs.Guess.{PrintsService, before_byte, behind_leading_slash, behind_slash, behind_two_slashes, dot, ends_in_digit, guessed_service, hyphen, is_aws_host, is_domain_label, is_service_byte, is_region, is_service, last_service, number_sign, question_mark, service_line, service_of_label, slash, printed_service, url_host};

use crate::saying::{tool_line, write_some};
use smithy_core::{ByteSink, Env, Mem};
use std::alloc::Global;

/// The host of a URL, with its port; none where no two slashes lead it.
#[tactic(auto, unfolding(crate::specs::Guess::url_host))]
pub fn url_host(url: &str) -> &str
    ensures { result.now ≡ url_host url.now }
{
    before_fragment(before_query(before_slash(behind_two_slashes(url))))
}

// What stands behind the first two slashes, where nothing stands between them.
#[tactic(auto, unfolding(crate::specs::Guess::behind_two_slashes))]
fn behind_two_slashes(url: &str) -> &str
    ensures { result.now ≡ behind_two_slashes url.now }
{
    behind_leading_slash(behind_slash(url))
}

fn behind_leading_slash(text: &str) -> &str
    ensures { result.now ≡ behind_leading_slash text.now }
{
    if before_slash(text).is_empty() {
        behind_slash(text)
    } else {
        ""
    }
}

fn behind_slash(text: &str) -> &str
    ensures { result.now ≡ behind_slash text.now }
{
    match text.split_once('/') {
        Some((_, back)) => back,
        None => "",
    }
}

fn before_slash(text: &str) -> &str
    ensures { result.now ≡ before_byte slash text.now }
{
    match text.split_once('/') {
        Some((front, _)) => front,
        None => text,
    }
}

fn before_query(text: &str) -> &str
    ensures { result.now ≡ before_byte question_mark text.now }
{
    match text.split_once('?') {
        Some((front, _)) => front,
        None => text,
    }
}

fn before_fragment(text: &str) -> &str
    ensures { result.now ≡ before_byte number_sign text.now }
{
    match text.split_once('#') {
        Some((front, _)) => front,
        None => text,
    }
}

fn before_port(text: &str) -> &str
    ensures { result.now ≡ before_byte colon text.now }
{
    match text.split_once(':') {
        Some((front, _)) => front,
        None => text,
    }
}

/// The service that a host of AWS names, with its port or without.
pub fn guessed_service(host: &str) -> Option<&str>
    ensures { option_copied result ≡ guessed_service host.now }
{
    let name = before_port(host);
    if is_aws_host(name) {
        last_service(name)
    } else {
        None
    }
}

fn is_aws_host(name: &str) -> bool
    ensures { result ≡ is_aws_host name.now }
{
    name.as_bytes().ends_with(b".amazonaws.com")
}

// The last service that a label of the name is.
fn last_service(name: &str) -> Option<&str>
    ensures { option_copied result ≡ last_service (slice_split (λ byte. byte == dot) name.now) }
{
    let mut found = None;
    for label in name.split('.') {
        found = service_of_label(label).or(found);
    }
    found
}

#[tactic(auto, unfolding(crate::specs::Guess::service_of_label))]
fn service_of_label(label: &str) -> Option<&str>
    ensures { option_copied result ≡ service_of_label label.now }
{
    if is_region(label.as_bytes()) && label.as_bytes().starts_with(b"s3-") {
        Some("s3")
    } else if is_service(label) {
        Some(label)
    } else {
        None
    }
}

#[tactic(auto, unfolding(crate::specs::Guess::is_service))]
fn is_service(label: &str) -> bool
    ensures { result ≡ is_service label.now }
{
    !label.is_empty()
        && has_name_bytes(label.as_bytes())
        && !is_region(label.as_bytes())
        && !is_domain_label(label)
}

fn has_name_bytes(label: &[u8]) -> bool
    ensures { result ≡ list_all is_service_byte label.now }
{
    label.iter().all(|byte| is_service_byte(*byte))
}

fn is_service_byte(byte: u8) -> bool
    ensures { result ≡ is_service_byte byte }
{
    byte.is_ascii_lowercase() || byte.is_ascii_digit() || byte == b'-'
}

#[tactic(auto, unfolding(crate::specs::Guess::is_region))]
fn is_region(label: &[u8]) -> bool
    ensures { result ≡ is_region label.now }
{
    ends_in_digit(label) && has_hyphen(label)
}

fn ends_in_digit(label: &[u8]) -> bool
    ensures { result ≡ ends_in_digit label.now }
{
    match label.last() {
        Some(byte) => byte.is_ascii_digit(),
        None => false,
    }
}

fn has_hyphen(label: &[u8]) -> bool
    ensures { result ≡ list_any (λ byte. byte == hyphen) label.now }
{
    label.iter().any(|byte| *byte == b'-')
}

fn is_domain_label(label: &str) -> bool
    ensures { result ≡ is_domain_label label.now }
{
    label == "amazonaws" || label == "com" || label == "dualstack"
}

/// Says on `err` which service is taken, where no option names it and the host does.
pub fn print_service<E: ByteSink>(alloc: Global, options: &Env, host: &str, err: &mut E)
    ensures prints { PrintsService (printed_service options.now host.now) (E.held err.old) (E.held err.new) }
    ensures count { E.faults err.old ≤ E.faults err.new }
{
    if let Some(service) = printed_service(options, host) {
        print_service_line(alloc, service, err);
    }
}

// The service that the host has to name.
fn printed_service<'a>(options: &Env, host: &'a str) -> Option<&'a str>
    ensures { option_copied result ≡ printed_service options.now host.now }
{
    if options.get("--service").is_some() || options.get("--s3").is_some() {
        None
    } else {
        guessed_service(host)
    }
}

fn print_service_line<E: ByteSink>(alloc: Global, service: &str, err: &mut E)
    ensures prints { PrintsService (Some service.now) (E.held err.old) (E.held err.new) }
    ensures count { E.faults err.old ≤ E.faults err.new }
{
    if let Ok(line) = service_line(alloc, service) {
        write_some(line.as_str(), err);
    }
}

fn service_line(alloc: Global, service: &str) -> Mem<String>
    ensures { IfOk result (λ line. string_bytes line ≡ service_line service.now) }
{
    let text = format!(in alloc;
        "the service is {service}, by the host; --service NAME says another"
    )?;
    tool_line(alloc, text.as_str())
}

use crate::shown::{Shown, copy_shown, debugged, nothing, push_text, quoted};
use crate::steps::{Steps, all_answers};
use crate::words::{moment_of, shared, unless_empty, word, words_from};
use smithy_core::{
    Credentials, Headers, HttpRequest, HttpResponse, Identity, Mem, Moment, RetryConfig,
};
use std::alloc::Global;
use tool_case_lines::halves;

pub fn answer(alloc: Global, call: &str, words: &[&str]) -> Mem<String> {
    match call {
        "headers" => all_answers(alloc, Headers::new(alloc), words),
        "collected" => collected(alloc, words),
        "new" | "copied_request" => copied_request(alloc, words),
        "copied_response" => copied_response(alloc, words),
        "max_attempts" => RetryConfig::standard().max_attempts.to_string(alloc),
        _ if words.len() == 1 => copied_token(alloc, word(words, 0)),
        _ => of_signer(alloc, call, credentials(alloc, words)?),
    }
}

impl Steps for Headers {
    fn after(&mut self, alloc: Global, step: &str) -> Mem<String> {
        let (step, word) = halves(step);
        match step {
            "get" => debugged(alloc, &self.get(word)),
            "get_all" => values(alloc, self, word),
            "contains_key" => self.contains_key(word).to_string(alloc),
            "len" => self.len().to_string(alloc),
            "is_empty" => self.is_empty().to_string(alloc),
            "iter" => self.shown(alloc),
            "for" => looped(alloc, self),
            "copy" => copy_shown(alloc, self.try_clone()),
            _ => put_in(alloc, self, step, word),
        }
    }
}

// Adds a pair, which has no answer.
fn put_in(alloc: Global, headers: &mut Headers, step: &str, pair: &str) -> Mem<String> {
    put(headers, step, pair)?;
    nothing(alloc)
}

// Adds a pair, in the place of its name or at the end.
fn put(headers: &mut Headers, step: &str, pair: &str) -> Mem<()> {
    let (name, value) = halves(pair);
    match step {
        "insert" => headers.insert(name, value),
        _ => headers.append(name, value),
    }
}

fn values(alloc: Global, headers: &Headers, name: &str) -> Mem<String> {
    let mut answers = String::new(alloc);
    for value in headers.get_all(name) {
        push_text(&mut answers, value)?;
    }
    Ok(answers)
}

impl Shown for Headers {
    fn shown(&self, alloc: Global) -> Mem<String> {
        let mut pairs = String::new(alloc);
        push_pairs(&mut pairs, self)?;
        Ok(pairs)
    }
}

fn push_pairs(pairs: &mut String, headers: &Headers) -> Mem<()> {
    for (name, value) in headers.iter() {
        push_pair(pairs, name, value)?;
    }
    Ok(())
}

// The pairs that a loop over the headers gives.
fn looped(alloc: Global, headers: &Headers) -> Mem<String> {
    let mut pairs = String::new(alloc);
    for (name, value) in headers {
        push_pair(&mut pairs, name, value)?;
    }
    Ok(pairs)
}

fn push_pair(pairs: &mut String, name: &str, value: &str) -> Mem<()> {
    let gap = if pairs.is_empty() { "" } else { " | " };
    write!(pairs, "{gap}{name}={value}")
}

// The headers that are collected from pairs.
fn collected(alloc: Global, words: &[&str]) -> Mem<String> {
    let mut given: Vec<(&str, &str)> = Vec::new(alloc);
    for word in words {
        given.push(halves(word))?;
    }
    let headers: Headers = given.into_iter().collect(alloc)?;
    headers.shown(alloc)
}

fn put_all(headers: &mut Headers, steps: &[&str]) -> Mem<()> {
    for step in steps {
        let (step, pair) = halves(step);
        put(headers, step, pair)?;
    }
    Ok(())
}

// A copy of a request that was made of a method, a target, a body and headers.
fn copied_request(alloc: Global, words: &[&str]) -> Mem<String> {
    let mut request = HttpRequest::new(alloc, word(words, 0), word(words, 1))?;
    put_all(&mut request.headers, words_from(words, 3))?;
    request.body = shared(alloc, word(words, 2))?;
    copy_shown(alloc, request.try_clone())
}

impl Shown for HttpRequest {
    fn shown(&self, alloc: Global) -> Mem<String> {
        let body = quoted(alloc, self.body.as_slice())?;
        let mut text = format!(in alloc; "{} {} {body}", self.method, self.target)?;
        push_pairs(&mut text, &self.headers)?;
        Ok(text)
    }
}

fn copied_response(alloc: Global, words: &[&str]) -> Mem<String> {
    let mut response = HttpResponse {
        status: word(words, 0).parse().unwrap_or(0),
        headers: Headers::new(alloc),
        skew: word(words, 1).parse().ok(),
    };
    put_all(&mut response.headers, words_from(words, 2))?;
    copy_shown(alloc, response.try_clone())
}

impl Shown for HttpResponse {
    fn shown(&self, alloc: Global) -> Mem<String> {
        let mut text = format!(in alloc; "{} {:?}", self.status, self.skew)?;
        push_pairs(&mut text, &self.headers)?;
        Ok(text)
    }
}

// A copy of who signs.
fn of_signer(alloc: Global, call: &str, signer: Credentials) -> Mem<String> {
    match call {
        "copied_credentials" => copy_shown(alloc, signer.try_clone()),
        "copied_identity" => copied_identity(alloc, Identity::Credentials(signer)),
        _ => copied_identity(alloc, Identity::from(signer)),
    }
}

fn copied_token(alloc: Global, token: &str) -> Mem<String> {
    copied_identity(alloc, Identity::Token(String::from_str(alloc, token)?))
}

fn copied_identity(alloc: Global, identity: Identity) -> Mem<String> {
    copy_shown(alloc, identity.try_clone())
}

// The credentials of a key's id, a secret, a token, empty for none, and an expiry.
fn credentials(alloc: Global, words: &[&str]) -> Mem<Credentials> {
    let key_id = String::from_str(alloc, word(words, 0))?;
    let secret = String::from_str(alloc, word(words, 1))?;
    let token = unless_empty(alloc, word(words, 2))?;
    Ok(Credentials::new(key_id, secret, token, expiry_of(word(words, 3))))
}

fn expiry_of(word: &str) -> Option<Moment> {
    if word.is_empty() {
        return None;
    }
    Some(moment_of(word))
}

impl Shown for Credentials {
    fn shown(&self, alloc: Global) -> Mem<String> {
        let (key_id, secret) = (self.access_key_id(), self.secret_access_key());
        let (token, expiry) = (self.session_token(), self.expiry().map(Moment::secs));
        format!(in alloc; "{key_id} {secret} {token:?} {expiry:?}")
    }
}

impl Shown for Identity {
    fn shown(&self, alloc: Global) -> Mem<String> {
        match self {
            Identity::Credentials(signer) => signer.shown(alloc),
            Identity::Token(token) => format!(in alloc; "token {token}"),
        }
    }
}

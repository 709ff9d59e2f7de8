//! Does one kind of work so many times, and prints a digest of the answers: `bench/run.sh` times it.
//!
//! ```notrust
//! bench sign COUNT            signs a small request: three headers and no body
//! bench presign COUNT         presigns a small request: no headers and no body
//! bench kept-sign COUNT       signs such a request each time under one key
//! bench request COUNT         makes such a request each time, signs it, and puts the signature in
//! bench kept-request COUNT    makes such a request each time, signs it under one key, and puts the signature in
//! bench signer COUNT          does so by a signer, each a second after the last one
//! bench operation COUNT       makes and signs the small request by the inputs of its operation
//! bench followed-operation COUNT does so with the signers that go on from it
//! bench operate COUNT         runs an operation over a transport in memory
//! bench admit COUNT           lets a signed small request in at a service's door
//! bench chain COUNT SIZE      signs a chain of so many events with so many bytes each
//! bench kept-chain COUNT SIZE signs such a chain by a signer that keeps its key
//! bench checksum COUNT SIZE   the CRC-32 of so many bytes
//! bench hash COUNT SIZE       the SHA-256 of so many bytes
//! bench write COUNT SIZE      writes a frame with so many bytes of payload
//! bench decode COUNT          decodes 175 frames of 1,024 bytes that come in pieces of 1,400 bytes
//! bench receive COUNT         receives such a stream by a receiver
//! bench chunk COUNT SIZE      encodes a body of so many pieces in chunks
//! bench signed-chunk COUNT SIZE encodes such a body in chunks that are signed
//! bench read-chunks COUNT SIZE reads the text of such a body of 16 pieces
//! bench profiles COUNT        parses a profile file of 100 KB
//! bench each COUNT            each of these so many times, with small sizes, a line for each
//! ```
#![tactic(auto)]

mod admitting;
mod chunked;
mod digest;
mod frames;
mod kept;
mod operating;
mod profiles;
mod receiving;
mod requests;
mod signing;
mod sums;
mod work;

use crate::work::Work;
use std::process::ExitCode;
use std::{env, io};

fn main(rt: HostRuntime) -> io::Result<ExitCode> {
    let mut args = env::args(&rt)?;
    args.next();
    let words: Vec<String> = args.collect(rt.alloc())?;
    let works = match Work::from_words(rt.alloc(), words.as_slice())? {
        Some(works) => works,
        None => {
            eprintln!(rt; "usage: bench KIND COUNT [SIZE]")?;
            return Ok(ExitCode::from(2));
        }
    };
    for work in works.iter() {
        match work.answers(rt.alloc()) {
            Ok(digest) => println!(rt; "{work} {digest}")?,
            Err(refusal) => {
                eprintln!(rt; "{refusal}")?;
                return Ok(ExitCode::from(7));
            }
        }
    }
    Ok(ExitCode::SUCCESS)
}

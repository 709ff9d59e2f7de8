use smithy_core::Env;
use std::alloc::Global;
use std::io::ErrorKind;
use std::{env, rt};

/// Why a program doesn't get its words and variables.
#[derive(Clone, Copy, Debug, PartialEq, Eq)]
pub enum StartFault {
    /// A word isn't UTF-8. They come all together, so its place isn't known.
    BadWord,
    /// Memory ran out.
    NoMemory,
}

/// The words after the program's name, and the variables.
///
/// # Errors
///
/// [`StartFault::BadWord`] where a word isn't UTF-8.
pub fn words_and_env<R: rt::Env + Alloc<A = Global>>(
    rt: &R,
) -> Result<(Vec<String>, Env), StartFault> {
    let mut args = match env::args(rt) {
        Ok(args) => args,
        Err(e) if e.kind() == ErrorKind::OutOfMemory => return Err(StartFault::NoMemory),
        Err(_) => return Err(StartFault::BadWord),
    };
    args.next();
    let Ok(words) = args.collect(rt.alloc()) else {
        return Err(StartFault::NoMemory);
    };
    match Env::real(rt.alloc(), rt) {
        Ok(env) => Ok((words, env)),
        Err(_) => Err(StartFault::NoMemory),
    }
}

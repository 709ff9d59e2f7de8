use crate::env::Env;
use crate::memory::Mem;
use std::alloc::{AllocError, Global};
use std::collections::HashSet;
use std::env::{Env as Variables, FillError};
use std::str;

impl Env {
    /// The environment variables of the process. Contracts don't know what they hold.
    ///
    /// Left out are a variable whose name or value isn't UTF-8, one whose name is empty, an entry without `=`, and, of equal
    /// names, each but the first, which is the one that counts for the operating system. A variable that is set to an empty
    /// value is kept.
    pub fn real<R: Variables>(alloc: Global, runtime: &R) -> Mem<Env> {
        let mut env = Env::new(alloc);
        let mut names = HashSet::new(alloc);
        for at in 0..usize::MAX {
            match variable_at(alloc, runtime, at)? {
                Some(bytes) => set_new(alloc, &mut env, &mut names, bytes.as_slice())?,
                None => break,
            }
        }
        Ok(env)
    }
}

// Sets a variable, given as `NAME=VALUE`, where it is text and its name is new. The names that were set are kept beside the pairs,
// since a look-up among many pairs takes as many steps.
fn set_new(alloc: Global, env: &mut Env, names: &mut HashSet<String>, bytes: &[u8]) -> Mem<()> {
    let Ok(text) = str::from_utf8(bytes) else {
        return Ok(());
    };
    match text.split_once('=') {
        Some((name, value)) if !name.is_empty() && !names.contains(name) => {
            names.insert(String::from_str(alloc, name)?)?;
            env.set(name, value)
        }
        _ => Ok(()),
    }
}

// The variable at a place, as `NAME=VALUE`, and `None` after the last one.
fn variable_at<R: Variables>(alloc: Global, runtime: &R, at: usize) -> Mem<Option<Vec<u8>>> {
    let mut buffer = Vec::new(alloc);
    let mut room = 256usize;
    for _ in 0..usize::BITS {
        buffer.resize(room, 0)?;
        match runtime.var_at(at, buffer.as_mut_slice()) {
            Ok(n) => {
                buffer.truncate(n);
                return Ok(Some(buffer));
            }
            Err(FillError::TooLong) => room = room.saturating_mul(2),
            Err(FillError::NotPresent) => return Ok(None),
        }
    }
    Err(AllocError)
}

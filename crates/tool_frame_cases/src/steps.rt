use crate::shown::push;
use smithy_core::Mem;
use std::alloc::Global;

// What takes steps and answers each.
pub trait Steps {
    // What it answers to a step.
    fn after(&mut self, alloc: Global, step: &str) -> Mem<String>;
}

// The answers to these steps of what takes no more of them.
pub fn all_answers<S: Steps + Drop>(alloc: Global, subject: S, steps: &[&str]) -> Mem<String> {
    let mut subject = subject;
    answers_of(alloc, &mut subject, steps)
}

// The answers to these steps.
pub fn answers_of<S: Steps>(alloc: Global, subject: &mut S, steps: &[&str]) -> Mem<String> {
    let mut answers = String::new(alloc);
    for step in steps {
        push(&mut answers, subject.after(alloc, step))?;
    }
    Ok(answers)
}

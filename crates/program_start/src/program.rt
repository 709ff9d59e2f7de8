use crate::start::{StartFault, words_and_env};
use smithy_core::{
    ByteSink, ByteSource, Clock, Disk, Env, HostDisk, StdSink, StdSource, SystemClock,
};
use std::alloc::Global;
use std::process::ExitCode;

/// A program by what it does with whatever input, files, clock and outputs it is handed; [`run_program`] hands it the real ones.
pub trait Program {
    /// How a run ends.
    type Status;

    /// Does what the words ask for, and says on `err` how it ended.
    fn answer<S: ByteSource, D: Disk, C: Clock, K: ByteSink, E: ByteSink>(
        alloc: Global,
        words: &[String],
        env: &Env,
        input: &mut S,
        disk: &mut D,
        clock: &mut C,
        out: &mut K,
        err: &mut E,
    ) -> Self::Status;

    /// Says on `err` why there are no words.
    fn refuse<E: ByteSink>(alloc: Global, fault: StartFault, err: &mut E) -> Self::Status;

    /// What the process ends with.
    fn exit_code(status: Self::Status) -> ExitCode;
}

/// Runs a program with its own words and variables, over the real input, files, clock and outputs.
pub fn run_program<P: Program>(rt: &HostRuntime) -> ExitCode {
    let alloc = rt.alloc();
    let mut err = StdSink::new(rt.stderr());
    let status = match words_and_env(rt) {
        Ok((words, env)) => P::answer(
            alloc,
            words.as_slice(),
            &env,
            &mut StdSource::new(rt.reader()),
            &mut HostDisk::new(alloc, rt),
            &mut SystemClock::new(rt),
            &mut StdSink::new(rt.stdout()),
            &mut err,
        ),
        Err(fault) => P::refuse(alloc, fault, &mut err),
    };
    P::exit_code(status)
}

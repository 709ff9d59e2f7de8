//! The program, over what a caller lends.
ghost use Rattle.std.specs.Prelude.{◌≡◌, ◌⊎◌, ◌++◌, ◌∷◌, [], Result, IfOk, MatchResult, OnOk, Ok, true, false, length, map, string_bytes};
ghost use Rattle.std.specs.List.{list_all};
ghost use Rattle.std.specs.Str.{is_utf8};
ghost use Rattle.smithy_core.specs.Disk.{file_pairs};
ghost use Rattle.signed_stream.specs.Status.{ending_of, exit_code};
ghost use Rattle.firuvaik_c.specs.Asked.{lent_pair};
ghost use Rattle.firuvaik_c.specs.Faults.{no_memory, not_text};
ghost use Rattle.firuvaik_c.specs.Programs.{HasRun, LendsProgram, RunsLent};
ghost use Rattle.firuvaik_c.specs.declared.fault.Fault.{Fault};
ghost use Rattle.firuvaik_c.specs.declared.program.ProgramText.{ProgramText};

use crate::answer::{Answer, lend, refuse};
use crate::fault::Fault;
use crate::lent::{Field, Invocation};
use crate::texts::{names_of, text_of, variables_of};
use signed_stream::{Status, run};
use smithy_core::{CalmDisk, CalmSink, CalmSource, Env, FixedClock, Mem, Moment};
use std::alloc::Global;

/// How the program ended.
#[repr(C)]
#[derive(Clone, Copy)]
pub struct Outcome {
    /// Its exit number: 0 where all was done.
    pub code: u32,
    /// How many bytes it wrote; behind them stands the line that it said of its end.
    pub output_length: usize,
}

/// Runs the program over what is lent: it reads no other file and asks no other clock, and writes nowhere else.
///
/// The text is what it wrote, and behind that the line that it said of its end, where there is one. Both are written where they fit the
/// room, and else nothing is.
#[unsafe(no_mangle)]
pub extern "C" fn firuvaik_run(
    alloc: Global,
    invocation: &Invocation<'_>,
    outcome: &mut Outcome,
    out: &mut [u8],
) -> Answer
    ensures { (made : Result ProgramText Fault) × RunsLent invocation.now made × LendsProgram made outcome.old outcome.new out.old out.new result }
{
    match ran(alloc, invocation) {
        Ok(ran) => lend_program(&ran, outcome, out),
        Err(fault) => refuse(fault),
    }
}

// What the program wrote and said, and how it ended.
struct ProgramText {
    text: Vec<u8>,
    outcome: Outcome,
}

// Written out: a derived drop would be taken apart in the proof of each function that drops one.
impl Drop for ProgramText {
    fn drop(self) {
        let ProgramText { text, outcome } = self;
        drop(text);
        drop(outcome);
    }
}

// Writes text and outcome, where the text fits.
fn lend_program(ran: &ProgramText, outcome: &mut Outcome, out: &mut [u8]) -> Answer
    ensures { LendsProgram (Ok ran.now) outcome.old outcome.new out.old out.new result }
{
    let answer = lend(ran.text.as_slice(), out);
    if answer.status == 0 {
        *outcome = ran.outcome;
    }
    answer
}

// Runs the program over copies of what is lent.
fn ran(alloc: Global, invocation: &Invocation<'_>) -> Result<ProgramText, Fault>
    ensures { RunsLent invocation.now result }
{
    let words = names_of(alloc, invocation.words)?;
    let env = variables_of(alloc, invocation.variables)?;
    let files = files_of(alloc, invocation.files)?;
    let input = Vec::from_slice(alloc, invocation.input)?;
    let at = Moment::new(invocation.seconds, 0);
    Ok(run_over(alloc, words.as_slice(), &env, files, input, at)?)
}

// Copies of the files, where their paths are texts.
#[tactic(auto, using(std::proofs::lemmas::List::Folds::list_all_more, std::proofs::lemmas::List::Folds::list_all_at))]
fn files_of(alloc: Global, lent: &[Field<'_>]) -> Result<Vec<(String, Vec<u8>)>, Fault>
    ensures { MatchResult result
        (λ files. (list_all (λ file. is_utf8 file.name.now) lent.now ≡ true) × (file_pairs files.items ≡ map lent_pair lent.now))
        (λ fault. ((list_all (λ file. is_utf8 file.name.now) lent.now ≡ false) × (fault ≡ not_text)) ⊎ (fault ≡ no_memory)) }
{
    let mut files = Vec::new(alloc);
    for file in lent {
        let path = text_of(file.name)?;
        push_file(&mut files, path, file.value)?;
    }
    Ok(files)
}

fn push_file(files: &mut Vec<(String, Vec<u8>)>, path: &str, bytes: &[u8]) -> Mem<()>
    ensures { OnOk result (file_pairs files.new.items ≡ file_pairs files.old.items ++ (path.now, bytes.now) ∷ []) }
{
    let alloc = *files.allocator();
    let path = String::from_str(alloc, path)?;
    let bytes = Vec::from_slice(alloc, bytes)?;
    files.push((path, bytes))?;
    Ok(())
}

// Runs the program over these words, variables, files and input, at this moment.
fn run_over(
    alloc: Global,
    words: &[String],
    env: &Env,
    files: Vec<(String, Vec<u8>)>,
    input: Vec<u8>,
    at: Moment,
) -> Mem<ProgramText>
    ensures { IfOk result (HasRun (record {
      words = map string_bytes words.now;
      env = env.now;
      files = file_pairs files.items;
      input = input.items;
      at = at;
    })) }
{
    let (mut input, mut disk) = (CalmSource::new(input), CalmDisk::new(files));
    let mut clock = FixedClock::new(at);
    let (mut out, mut err) = (CalmSink::new(alloc), CalmSink::new(alloc));
    let status = run(
        alloc, words, env, &mut input, &mut disk, &mut clock, &mut out, &mut err,
    );
    program_text(alloc, &status, out.held(), err.held())
}

// What was written and said of a run that ended so.
fn program_text(alloc: Global, status: &Status, output: &[u8], said: &[u8]) -> Mem<ProgramText>
    ensures text { IfOk result (λ ran. ran.text.items ≡ output.now ++ said.now) }
    ensures outcome { IfOk result (λ ran. ran.outcome ≡ record { code = exit_code (ending_of status.now); output_length = length output.now }) }
{
    let mut text = Vec::from_slice(alloc, output)?;
    text.extend_from_slice(said)?;
    Ok(ProgramText {
        text,
        outcome: Outcome {
            code: u32::from(status.code()),
            output_length: output.len(),
        },
    })
}

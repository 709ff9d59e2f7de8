ghost use Rattle.std.specs.Prelude.{◌≡◌, ℕ, ◌≤◌, List, Option, Some, None, Result, IfOk, IsErrOf, option_map, option_copied};
ghost use Rattle.std.specs.Option.{option_or};
ghost use Rattle.smithy_core.specs.Disk.{AnswersAsListed, FindsFile, file_pair, file_pairs};
ghost use Rattle.smithy_core.specs.Calls.{no_calls};
ghost use Rattle.smithy_core.specs.Outside.{HasFile, LacksFile, RoseOrStands};
ghost use Rattle.smithy_core.specs.TextPairs.{last_value, value_if};

use crate::memory::Mem;
use crate::outside::calls::Calls;
use std::alloc::Global;
use std::error::Error;
use std::fmt;
use std::marker::Model;

/// Why a file wasn't read.
#[derive(Clone, Copy, Debug, PartialEq, Eq)]
pub enum DiskError {
    /// No file has this path.
    NotFound,
    /// The disk failed, and counted it.
    Failed,
    /// Memory ran out.
    NoMemory,
}

impl fmt::Display for DiskError {
    ghost use Rattle.std.specs.Prelude.{Some};
    ghost use Rattle.smithy_core.specs.Disk.{disk_error_text};

    ghost output = { λ fault. Some (disk_error_text fault) };

    fn fmt<W: fmt::Write>(&self, f: &mut fmt::Formatter<W>) -> fmt::Result {
        f.write_str(match self {
            DiskError::NotFound => "no file has this path",
            DiskError::Failed => "the disk failed",
            DiskError::NoMemory => "no memory",
        })
    }
}

impl Error for DiskError {}

/// Files. `answers` relates a disk before a read, the path, its answer, and the disk after it.
pub trait Disk {
    ghost use Rattle.std.specs.Global.{Vec};
    ghost use Rattle.smithy_core.specs.declared.outside.disk.DiskError.{DiskError};

    // a read of the path, if more is known of it than the clauses below say
    ghost answers: { Self → List ℕ → Result (Vec ℕ) DiskError → Self → Type 0 } = { λ _ _ _ _. Unit {0} };

    // the paths and their bytes, if it shows them; of equal paths the last pair counts
    ghost files: { Self → Option (List (List ℕ × List ℕ)) };

    // how often it has failed
    ghost faults: { Self → ℕ };

    /// The bytes of the file at a path.
    ///
    /// # Errors
    ///
    /// [`DiskError::NotFound`] where there is no such file, [`DiskError::Failed`] where the count of faults rose, or
    /// is saturated, and [`DiskError::NoMemory`] where memory runs out. Any answer but
    /// a failure leaves the count.
    fn read(&mut self, path: &str) -> Result<Vec<u8>, DiskError>
        ensures count { faults self.old ≤ faults self.new }
        ensures cause { IsErrOf result DiskError.Failed → RoseOrStands (faults self.old) (faults self.new) }
        ensures steady { (IsErrOf result DiskError.Failed → ⊥) → faults self.new ≡ faults self.old }
        ensures same { files self.new ≡ files self.old }
        ensures bytes { IfOk result (λ bytes. HasFile (files self.old) path.now bytes.items) }
        ensures lacks { IsErrOf result DiskError.NotFound → LacksFile (files self.old) path.now }
        ensures answers { answers self.old path.now result self.new };
}

/// Files in memory that never fail. There is no [`Debug`](std::fmt::Debug), so that no secret is printed.
///
/// Contracts see the paths and the bytes.
#[derive(Drop)]
pub struct CalmDisk {
    files: Vec<(String, Vec<u8>)>,
}

impl Model for CalmDisk {
    ghost use Rattle.std.specs.Prelude.{ℕ, List};
    ghost use Rattle.smithy_core.specs.Disk.{file_pairs};

    ghost Value = { List (List ℕ × List ℕ) };

    ghost view = { λ disk. file_pairs disk.files.items };
}

impl CalmDisk {
    /// These paths with their bytes. Of equal paths the last pair counts.
    pub fn new(files: Vec<(String, Vec<u8>)>) -> CalmDisk
        ensures files { ⟦<CalmDisk as Disk>⟧.files result ≡ Some (file_pairs files.items) }
        ensures faults { ⟦<CalmDisk as Disk>⟧.faults result ≡ 0 }
    {
        CalmDisk { files }
    }

    /// A disk with the same files.
    pub fn try_clone(&self) -> Mem<CalmDisk>
        ensures { IfOk result (λ copy. copy ≡ self.now) }
    {
        Ok(CalmDisk {
            files: copied_files(*self.files.allocator(), self.files.as_slice())?,
        })
    }
}

impl Disk for CalmDisk {
    ghost files = { λ disk. Some disk };

    ghost faults = { λ _. 0 };

    ghost answers = { λ old path answer new. FindsFile old path answer × (new ≡ old) };

    fn read(&mut self, path: &str) -> Result<Vec<u8>, DiskError>
        ensures answers { FindsFile self.old path.now result × (self.new ≡ self.old) }
        ensures never_fails { IsErrOf result DiskError.Failed → ⊥ }
    {
        copied_file(self.files.as_slice(), path)
    }
}

/// Files in memory, with the calls of `read` that are to fail, counted from 1. [`Debug`](std::fmt::Debug) isn't there, so
/// that no secret is printed.
///
/// Contracts see a `DiskState`.
#[derive(Drop)]
pub struct FaultyDisk {
    files: Vec<(String, Vec<u8>)>,
    calls: Calls,
}

impl Model for FaultyDisk {
    ghost use Rattle.smithy_core.specs.Disk.{file_pairs};
    ghost use Rattle.smithy_core.specs.Disk.{DiskState};

    ghost Value = { DiskState };

    ghost view = { λ disk. record { files = file_pairs disk.files.items; tally = disk.calls } };
}

impl FaultyDisk {
    /// These paths with their bytes, and no call was made. Of equal paths the last pair counts.
    pub fn new(files: Vec<(String, Vec<u8>)>, fails: Vec<u64>) -> FaultyDisk
        ensures files { ⟦<FaultyDisk as Disk>⟧.files result ≡ Some (file_pairs files.items) }
        ensures faults { ⟦<FaultyDisk as Disk>⟧.faults result ≡ 0 }
        ensures calls { result.tally ≡ no_calls fails.items }
    {
        FaultyDisk {
            files,
            calls: Calls::new(fails),
        }
    }

    /// A disk with the same files, after the same calls.
    pub fn try_clone(&self) -> Mem<FaultyDisk>
        ensures { IfOk result (λ copy. copy ≡ self.now) }
    {
        Ok(FaultyDisk {
            files: copied_files(*self.files.allocator(), self.files.as_slice())?,
            calls: self.calls.try_clone()?,
        })
    }
}

impl Disk for FaultyDisk {
    ghost files = { λ disk. Some disk.files };

    ghost faults = { λ disk. disk.tally.faults };

    ghost answers = { AnswersAsListed };

    fn read(&mut self, path: &str) -> Result<Vec<u8>, DiskError>
        ensures answers { AnswersAsListed self.old path.now result self.new }
    {
        if self.calls.count_one() {
            return Err(DiskError::Failed);
        }
        copied_file(self.files.as_slice(), path)
    }
}

// Files of the same paths and bytes.
fn copied_files(alloc: Global, files: &[(String, Vec<u8>)]) -> Mem<Vec<(String, Vec<u8>)>>
    ensures { IfOk result (λ copies. file_pairs copies.items ≡ file_pairs files.now) }
{
    let mut copies = Vec::new(alloc);
    for file in files {
        let bytes = Vec::from_slice(alloc, file.1.as_slice())?;
        copies.push((file.0.clone()?, bytes))?;
    }
    Ok(copies)
}

// A copy of the last file at the path.
fn copied_file(files: &[(String, Vec<u8>)], path: &str) -> Result<Vec<u8>, DiskError>
    ensures never_fails { IsErrOf result DiskError.Failed → ⊥ }
    ensures finds { FindsFile (file_pairs files.now) path.now result }
{
    match last_file(files, path) {
        None => Err(DiskError::NotFound),
        Some(bytes) => match bytes.clone() {
            Ok(copy) => Ok(copy),
            Err(_) => Err(DiskError::NoMemory),
        },
    }
}

// The bytes of the last file at the path.
#[tactic(auto, using(crate::proofs::PairLemmas::last_value_more))]
fn last_file<'a>(files: &'a [(String, Vec<u8>)], path: &str) -> Option<&'a Vec<u8>>
    ensures { option_map (λ bytes. bytes.items) (option_copied result)
        ≡ last_value (file_pairs files.now) path.now }
{
    let mut found = None;
    for file in files {
        found = later_file(found, file, path);
    }
    found
}

// The bytes of the file where it is at the path, or else what was found before it.
fn later_file<'a>(
    found: Option<&'a Vec<u8>>,
    file: &'a (String, Vec<u8>),
    path: &str,
) -> Option<&'a Vec<u8>>
    ensures { option_map (λ bytes. bytes.items) (option_copied result)
        ≡ option_or (value_if (file_pair file.now) path.now) (option_map (λ bytes. bytes.items) (option_copied found.entry)) }
{
    if file.0.as_str() == path {
        Some(&file.1)
    } else {
        found
    }
}

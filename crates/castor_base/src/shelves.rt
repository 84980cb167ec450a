// A shelf in memory.
ghost use Rattle.std.specs.Prelude.{◌≡◌, ◌≢◌, ◌≤◌, ◌⊎◌, ◌↔◌, Some, List, ℕ, option_map, IfOk, OnOk, OnErr, IfErr, IsTrue, IsOk, IsErr};
ghost use Rattle.castor_base.specs.Causes.{Rose};
ghost use Rattle.castor_base.specs.Files.{SameFiles, SameOthers, HasFile, IsTorn, ReadWhy, ReadFile};
ghost use Rattle.castor_base.specs.FileMap.{file_of};
ghost use Rattle.castor_base.specs.Shelves.{HasRoom};

use crate::failing::FailingCalls;
use crate::{Failed, Shelf, ShelfError};
use std::alloc::{AllocError, Global};
use std::collections::BTreeMap;

/// Files in memory, with a list of the calls of `read` and `write` that are to fail.
///
/// One counter stands for the faults of all names. It grows by the allocator that it keeps.
#[derive(Drop)]
pub struct MemoryShelf {
    alloc: Global,
    files: BTreeMap<String, Vec<u8>>,
    failing: FailingCalls,
}

impl MemoryShelf {
    ghost use Rattle.castor_base.specs.Failing.{failing_numbers, calls_seen, faults_seen};
    ghost use Rattle.castor_base.specs.Shelves.{shelf_file, shelf_failing};

    /// A shelf with these files. The calls to fail are given by number, counted from 0 over reads
    /// and writes together.
    pub fn new(alloc: Global, files: BTreeMap<String, Vec<u8>>, failing: Vec<u64>) -> Self
        ensures files { (name : List ℕ) → shelf_file result name ≡ file_of files name }
        ensures failing { failing_numbers (shelf_failing result) ≡ failing.items }
        ensures calls { calls_seen (shelf_failing result) ≡ 0 }
        ensures faults { faults_seen (shelf_failing result) ≡ 0 }
    {
        MemoryShelf {
            alloc,
            files,
            failing: FailingCalls::new(failing),
        }
    }

    /// The bytes under a name, if it has some.
    pub fn file(&self, name: &str) -> Option<&Vec<u8>>
        ensures { option_map (λ v. v.now.items) result ≡ shelf_file self.now name.now }
    {
        self.files.get(name)
    }

    /// How many calls of `read` and `write` there were.
    pub(crate) fn calls(&self) -> u64
        ensures { result ≡ calls_seen (shelf_failing self.now) }
    {
        self.failing.seen()
    }

    /// How many of the calls answered `Failed`.
    pub(crate) fn faults(&self) -> u64
        ensures { result ≡ faults_seen (shelf_failing self.now) }
    {
        self.failing.faults()
    }
}

// Whether a file under the name has room for so many bytes.
fn has_room(files: &BTreeMap<String, Vec<u8>>, name: &str, bytes: &[u8]) -> bool
    ensures { IsTrue result ↔ HasRoom files.now name.now bytes.now }
{
    match files.get(name) {
        Some(old) => bytes.len() <= old.capacity(),
        None => false,
    }
}

// Puts a copy of the bytes into the vector under the name, if there is one.
fn overwrite(
    files: &mut BTreeMap<String, Vec<u8>>,
    name: &str,
    bytes: &[u8],
) -> Result<(), AllocError>
    requires { HasRoom files.old name.now bytes.now }
    ensures file { file_of files.new name.now ≡ Some bytes.now }
    ensures others { (n : List ℕ) → n ≢ name.now → file_of files.new n ≡ file_of files.old n }
    ensures sure { IsOk result }
{
    match files.get_mut(name) {
        Some(old) => {
            old.clear();
            old.extend_from_slice(bytes)
        }
        None => Err(AllocError),
    }
}

// Puts a copy of the bytes under the name: into the vector that is there, if it has room for them,
// and else into a new one.
fn put_file(
    alloc: Global,
    files: &mut BTreeMap<String, Vec<u8>>,
    name: &str,
    bytes: &[u8],
) -> Result<(), AllocError>
    ensures file { OnOk result (file_of files.new name.now ≡ Some bytes.now) }
    ensures others { OnOk result ((n : List ℕ) → n ≢ name.now → file_of files.new n ≡ file_of files.old n) }
    ensures err { OnErr result ((n : List ℕ) → file_of files.new n ≡ file_of files.old n) }
    ensures full { OnErr result (HasRoom files.old name.now bytes.now → ⊥) }
{
    if has_room(files, name, bytes) {
        return overwrite(files, name, bytes);
    }
    let key = String::from_str(alloc, name)?;
    let value = Vec::from_slice(alloc, bytes)?;
    files.insert(key, value)?;
    Ok(())
}

impl Shelf for MemoryShelf {
    ghost use Rattle.castor_base.specs.Failing.{fails_next, faults_seen, CountsCall};
    ghost use Rattle.castor_base.specs.Shelves.{shelf_file, shelf_failing, CountsRead, HasToGrow};

    ghost files = { λ s. Some (shelf_file s) };

    ghost read_faults = { λ s n. faults_seen (shelf_failing s) };

    ghost write_faults = { λ s n. faults_seen (shelf_failing s) };

    /// A call that is to fail answers `Failed` where the file is there and within the limit.
    fn read(&mut self, alloc: Global, name: &str, limit: u64) -> Result<Vec<u8>, ShelfError>
        ensures same { SameFiles (Some (shelf_file self.old)) (Some (shelf_file self.new)) }
        ensures ok { IfOk result (λ bytes. ReadFile (Some (shelf_file self.old)) name.now limit bytes.items) }
        ensures why { IfErr result (ReadWhy (Some (shelf_file self.old)) name.now limit
            (Rose (faults_seen (shelf_failing self.old)) (faults_seen (shelf_failing self.new)))) }
        ensures reads { (n : List ℕ) → faults_seen (shelf_failing self.old) ≤ faults_seen (shelf_failing self.new) }
        ensures writes { (n : List ℕ) → faults_seen (shelf_failing self.old) ≤ faults_seen (shelf_failing self.new) }
        ensures counts { CountsRead (shelf_failing self.old) (shelf_failing self.new) result }
    {
        let fails = self.failing.count_call();
        match self.files.get(name) {
            None => Err(ShelfError::Absent),
            Some(bytes) if bytes.len() as u64 > limit => Err(ShelfError::TooLong),
            Some(_) if fails => {
                self.failing.count_fault();
                Err(ShelfError::Failed)
            }
            Some(bytes) => bytes.to_vec(alloc).map_err(|_| ShelfError::Memory),
        }
    }

    /// It fails exactly at the calls that are to and where no file under the name has room for the
    /// bytes and no memory is found. Then no file changes.
    fn write(&mut self, name: &str, bytes: &[u8]) -> Result<(), Failed>
        ensures others { SameOthers (Some (shelf_file self.old)) (Some (shelf_file self.new)) name.now }
        ensures ok { OnOk result (HasFile (Some (shelf_file self.new)) name.now bytes.now) }
        ensures torn { OnErr result (IsTorn (Some (shelf_file self.old)) (Some (shelf_file self.new)) name.now bytes.now) }
        ensures cause { OnErr result (Rose (faults_seen (shelf_failing self.old)) (faults_seen (shelf_failing self.new))) }
        ensures reads { (n : List ℕ) → faults_seen (shelf_failing self.old) ≤ faults_seen (shelf_failing self.new) }
        ensures writes { (n : List ℕ) → faults_seen (shelf_failing self.old) ≤ faults_seen (shelf_failing self.new) }
        ensures same { OnErr result (SameFiles (Some (shelf_file self.old)) (Some (shelf_file self.new))) }
        ensures counts { CountsCall (shelf_failing self.old) (shelf_failing self.new) result }
        ensures only_planned { IsErr result → IsTrue (fails_next (shelf_failing self.old)) ⊎ HasToGrow self.old name.now bytes.now }
    {
        if self.failing.count_call() {
            self.failing.count_fault();
            return Err(Failed);
        }
        if put_file(self.alloc, &mut self.files, name, bytes).is_err() {
            self.failing.count_fault();
            return Err(Failed);
        }
        Ok(())
    }
}

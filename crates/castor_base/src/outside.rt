// The outside as the program sees it. An object counts its faults, and tells what it holds where it can.
ghost use Rattle.std.specs.Prelude.{◌≡◌, ℕ, ◌≤◌, List, Option, length, IfOk, OnOk, OnErr, IfErr};
ghost use Rattle.std.specs.Io.{ReadsAtMost, WritesAtMost};
ghost use Rattle.std.specs.Io.KnownBytes.{ReadConsumes, WriteAppends};
ghost use Rattle.castor_base.specs.Causes.{Rose, HasCause};
ghost use Rattle.castor_base.specs.Files.{Files, SameFiles, SameOthers, HasFile, IsTorn, ReadWhy, ReadFile};

use crate::{Failed, ShelfError};
use std::alloc::Global;

/// Bytes that are taken from the front.
///
/// A count of faults never falls, and stops at 2^64 - 1.
pub trait Source {
    /// The bytes that are left, where they are told.
    ghost left: { Self → Option (List ℕ) };

    /// How often a call has failed.
    ghost faults: { Self → ℕ };

    /// Moves the next bytes into the front of the buffer, and answers how many: at most the
    /// buffer's length, and 0 on a buffer that isn't empty only at the end, where nothing is left.
    ///
    /// `Failed` comes only where the count of faults rose, and then nothing was taken.
    fn take(&mut self, buf: &mut [u8]) -> Result<usize, Failed>
        ensures bound { ReadsAtMost result buf.new }
        ensures bytes { ReadConsumes (left self.old) (left self.new) result buf.new }
        ensures cause { HasCause (faults self.old) (faults self.new) result };
}

/// Bytes that are given at the end.
///
/// A count of faults never falls, and stops at 2^64 - 1.
pub trait Sink {
    /// The bytes that were given, where they are told.
    ghost given: { Self → Option (List ℕ) };

    /// How often a call has failed.
    ghost faults: { Self → ℕ };

    /// Gives a prefix of the piece and answers its length, at least 1 where the piece isn't empty.
    ///
    /// `Failed` comes only where the count of faults rose, and then nothing was given.
    fn put(&mut self, bytes: &[u8]) -> Result<usize, Failed>
        ensures bound { WritesAtMost result bytes.now }
        ensures some { IfOk result (λ n. n ≡ 0 → length bytes.now ≡ 0) }
        ensures bytes { WriteAppends (given self.old) (given self.new) result bytes.now }
        ensures cause { HasCause (faults self.old) (faults self.new) result };
}

/// Files by name.
///
/// Each name has a count of faults of reads and one of writes. They never fall, and stop at
/// 2^64 - 1; an implementation may let one counter stand for all of them.
pub trait Shelf {
    /// The bytes under each name, where they are told.
    ghost files: { Self → Option Files };

    /// How often a read of a name has failed.
    ghost read_faults: { Self → List ℕ → ℕ };

    /// How often a write of a name has failed.
    ghost write_faults: { Self → List ℕ → ℕ };

    /// Answers the bytes under the name, at most `limit`. No file changes.
    ///
    /// Where the files are told, `Absent` comes exactly where the name is missing and `TooLong`
    /// exactly where more than `limit` bytes stand there; else they come only where the name's
    /// count of reads rose. `Failed` comes only where it rose. Else `Memory`.
    fn read(&mut self, alloc: Global, name: &str, limit: u64) -> Result<Vec<u8>, ShelfError>
        ensures same { SameFiles (files self.old) (files self.new) }
        ensures ok { IfOk result (λ bytes. ReadFile (files self.old) name.now limit bytes.items) }
        ensures why { IfErr result (ReadWhy (files self.old) name.now limit
            (Rose (read_faults self.old name.now) (read_faults self.new name.now))) }
        ensures reads { (n : List ℕ) → read_faults self.old n ≤ read_faults self.new n }
        ensures writes { (n : List ℕ) → write_faults self.old n ≤ write_faults self.new n };

    /// Puts the bytes under the name, and leaves the other names.
    ///
    /// `Failed` comes only where the name's count of writes rose. Then the name is as before,
    /// missing, or holds a prefix of the new bytes.
    fn write(&mut self, name: &str, bytes: &[u8]) -> Result<(), Failed>
        ensures others { SameOthers (files self.old) (files self.new) name.now }
        ensures ok { OnOk result (HasFile (files self.new) name.now bytes.now) }
        ensures torn { OnErr result (IsTorn (files self.old) (files self.new) name.now bytes.now) }
        ensures cause { OnErr result (Rose (write_faults self.old name.now) (write_faults self.new name.now)) }
        ensures reads { (n : List ℕ) → read_faults self.old n ≤ read_faults self.new n }
        ensures writes { (n : List ℕ) → write_faults self.old n ≤ write_faults self.new n };
}

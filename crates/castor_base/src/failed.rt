// What the calls of the outside answer where they give up.

/// A call on an object of the outside failed, and the object counted a fault.
#[derive(Clone, Copy, Debug, PartialEq, Eq)]
pub struct Failed;

/// Why a file was not read.
#[derive(Clone, Copy, Debug, PartialEq, Eq)]
pub enum ShelfError {
    /// No file has the name.
    Absent,
    /// The file has more bytes than the limit.
    TooLong,
    /// The shelf failed, and counted a fault.
    Failed,
    /// No memory was found for the file's bytes.
    Memory,
}

/// Why a source was not read to its end.
#[derive(Clone, Copy, Debug, PartialEq, Eq)]
pub enum TakeError {
    /// The source failed, and counted a fault.
    Failed,
    /// More bytes were taken than the limit.
    TooLong,
    /// No memory was found for the bytes.
    Memory,
}

//! How a run of a command ended.

ghost use Rattle.std.specs.Prelude.{◌≡◌};
ghost use Rattle.castor_cli.specs.Status.{code_of};

use castor_load::LoadError;
use castor_parse::ParseError;
use castor_schema::SchemaError;
use castor_script::StepError;
use castor_stage::StageError;
use castor_val::Faults;

/// What a command reads or writes.
#[derive(Clone, Copy, Debug, PartialEq, Eq)]
pub enum Place {
    /// The file of the query.
    Query,
    /// The file of the script.
    Script,
    /// The file of a table, from 0.
    Table(u32),
    /// The file of the image.
    Image,
    /// The input, which has the question lines.
    Input,
    /// The output, which gets the replies.
    Output,
}

/// Why a place can't be read.
#[derive(Clone, Copy, Debug, PartialEq, Eq)]
pub enum ReadFault {
    /// There is no such file.
    Absent,
    /// It has more bytes than its limit.
    TooLong,
    /// The device failed.
    Failed,
}

/// Why a query file is refused.
#[derive(Clone, Copy, Debug, PartialEq, Eq)]
pub enum QueryFault {
    /// Its text isn't a query by the grammar, or is too large.
    Parse(ParseError),
    /// Its names, numbers and types don't fit.
    Schema(SchemaError),
}

/// Why a script is refused.
#[derive(Clone, Copy, Debug, PartialEq, Eq)]
pub enum ScriptFault {
    /// A step, counted from 0, can't be taken.
    Refused { index: u64, why: StepError },
}

/// Why no database is built of a query.
#[derive(Clone, Copy, Debug, PartialEq, Eq)]
pub enum BuildFault {
    /// The rows of the final query aren't known to be in the order that the query's root asks for.
    OrderLost,
    /// A part of the final query is computed too early or too late.
    Stage(StageError),
    /// What the final query stores has faults.
    Faults(Faults),
    /// The image has more than 268,435,456 bytes.
    TooLarge,
}

/// How a run ended. `Ok` means that all was done; with any other status one line on the error
/// output says which it is.
#[derive(Clone, Copy, Debug, PartialEq, Eq)]
pub enum Status {
    /// All was done.
    Ok,
    /// The words are no form of a command.
    Usage,
    /// What can't be read, and why.
    Read(Place, ReadFault),
    /// What can't be written.
    Write(Place),
    /// Why the query file is refused.
    Query(QueryFault),
    /// Why the script is refused.
    Script(ScriptFault),
    /// A table, from 0, and why its file isn't one.
    Table(u32, LoadError),
    /// The bytes of the image's file are no image.
    Image,
    /// Why no database is built of the query.
    Build(BuildFault),
    /// The input has more than 67,108,864 bytes.
    TooLong,
    /// There was no memory.
    Memory,
    /// A command or a script is asked for that isn't built yet.
    NotYet,
}

impl Status {
    /// The number that the program ends with. Takes no memory.
    pub fn code(self) -> u8
        ensures { result ≡ code_of self }
    {
        match self {
            Status::Ok => 0,
            Status::Usage => 2,
            Status::Read(_, _) => 3,
            Status::Write(_) => 4,
            Status::Query(_) => 5,
            Status::Script(_) => 6,
            Status::Table(_, _) => 7,
            Status::Image => 8,
            Status::Build(_) => 9,
            Status::TooLong => 10,
            Status::Memory => 11,
            Status::NotYet => 12,
        }
    }
}

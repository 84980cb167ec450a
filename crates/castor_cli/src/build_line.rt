//! The lines on the error output that tell why a script is refused, and why no database is built.

ghost use Rattle.std.specs.Prelude.{◌≡◌};
ghost use Rattle.castor_base.specs.Causes.{Rose};
ghost use Rattle.castor_cli.specs.Puts.{Puts};
ghost use Rattle.castor_cli.specs.Status.{build_line, script_line, stage_line};

use crate::reply::kinds_text;
use crate::status::{BuildFault, ScriptFault};
use crate::telling::{put_line, put_three};
use castor_base::{Failed, Sink};
use castor_script::StepError;
use castor_stage::StageError;
use itoa::Buffer;

/// Puts the line for a script that is refused, in pieces. Takes no memory.
pub fn put_script_line<E: Sink>(err: &mut E, why: ScriptFault) -> Result<(), Failed>
    ensures { Puts (E.given err.old) (E.given err.new) (Rose (E.faults err.old) (E.faults err.new)) (script_line why) result }
{
    match why {
        ScriptFault::Refused {
            index,
            why: StepError::TooLarge,
        } => {
            let mut number = Buffer::new();
            put_three(
                err,
                b"castor: script: step ",
                number.format(index).as_bytes(),
                b": too large\n",
            )
        }
        ScriptFault::Refused {
            index: _,
            why: StepError::Memory,
        } => put_line(err, b"castor: memory\n"),
    }
}

// The line for a part of a query that is computed too early or too late.
fn stage_line(why: StageError) -> &'static [u8]
    ensures { result.now ≡ stage_line why }
{
    match why {
        StageError::TableAtRun => b"castor: build: table at run\n",
        StageError::JoinAtRun => b"castor: build: join at run\n",
        StageError::ParamAtBuild => b"castor: build: parameter at build\n",
        StageError::RunScopeAtBuild => b"castor: build: run scope at build\n",
        StageError::BuildScopeAtRun => b"castor: build: build scope at run\n",
    }
}

/// Puts the line for a query of which no database is built, in pieces. Takes no memory.
pub fn put_build_line<E: Sink>(err: &mut E, why: BuildFault) -> Result<(), Failed>
    ensures { Puts (E.given err.old) (E.given err.new) (Rose (E.faults err.old) (E.faults err.new)) (build_line why) result }
{
    match why {
        BuildFault::OrderLost => put_line(err, b"castor: build: order lost\n"),
        BuildFault::Stage(why) => put_line(err, stage_line(why)),
        BuildFault::Faults(faults) => put_three(
            err,
            b"castor: build: faults ",
            kinds_text(faults).as_bytes(),
            b"\n",
        ),
        BuildFault::TooLarge => put_line(err, b"castor: build: image too large\n"),
    }
}

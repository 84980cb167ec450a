//! The commands of the program, over a shelf of files, an input and two outputs.
#![tactic(auto)]

mod answers;
mod asking;
mod build_line;
mod building;
mod command;
mod finishing;
mod imaging;
mod lines;
mod preparation;
mod query;
mod query_line;
mod reply;
mod script;
mod status;
mod storing;
mod telling;
mod top;

pub use answers::{PrintError, answer_line};
pub use command::{Command, command_in};
pub use preparation::Stop;
pub use reply::reply_text;
pub use status::{BuildFault, Place, QueryFault, ReadFault, ScriptFault, Status};
pub use top::{castor, castor_uncounted};

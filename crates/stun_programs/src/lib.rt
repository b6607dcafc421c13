//! What programs over standard input and output share: reading an input to its end
//! ([`read_all`]), writing an output whole ([`write_all`]), and how a run fails ([`RunError`]).
#![tactic(auto)]

mod input_output;
mod run_error;

pub use input_output::{InputError, WriteFailed, read_all, write_all};
pub use run_error::{FAILED, RunError, arguments_error};

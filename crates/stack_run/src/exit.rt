ghost use Rattle.std.specs.Process.{exit_status};
ghost use Rattle.stack_run.specs.Program.{EndsWith};

use crate::refusal::Refusal;
use crate::refusing::refuse;
use image_store::Sink;
use std::process::ExitCode;

/// Ends the program with the status of its run as its exit code. Where there is none, since memory ran out for its words,
/// that is 6, and `memory` is written, or a front of it where the sink fails or runs out of memory (own profile).
pub fn end_program<O: Sink>(status: Option<u8>, out: &mut O) -> ExitCode
    ensures { EndsWith status (exit_status result) (O.outlet out.old) (O.outlet out.new) }
{
    match status {
        Some(status) => ExitCode::from(status),
        None => ExitCode::from(refuse(Refusal::Memory, "", out)),
    }
}

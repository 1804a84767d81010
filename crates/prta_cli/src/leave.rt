//! The number that the process ends with.

ghost use Rattle.std.specs.Prelude.{◌≡◌, ◌≢◌};
ghost use Rattle.std.specs.Process.{exit_status};
ghost use Rattle.prta_cli.specs.Answer.{status_number};

use crate::status::Status;
use std::io::ErrorKind;
use std::process::ExitCode;

// The number where the words can't be had, for another cause than memory.
const NO_WORDS: u8 = 9;

/// Ends with the number of the status.
pub fn exit_code(status: Status) -> ExitCode
    ensures { exit_status result ≡ status_number status }
{
    ExitCode::from(status.number())
}

/// Ends where the runtime doesn't give the words, by the kind of its error.
pub fn without_words(kind: ErrorKind) -> ExitCode
    ensures memory { kind ≡ ErrorKind.OutOfMemory → exit_status result ≡ 7 }
    ensures other { kind ≢ ErrorKind.OutOfMemory → exit_status result ≡ 9 }
{
    match kind {
        ErrorKind::OutOfMemory => exit_code(Status::NoMemory),
        _ => ExitCode::from(NO_WORDS),
    }
}

ghost use Rattle.std.specs.Prelude.{◌≡◌};
ghost use Rattle.std.specs.Process.{exit_status};
ghost use Rattle.job_commands.specs.Status.{exit_code_of};

use job_commands::Status;
use std::process::ExitCode;

/// The number that the program ends with: that of the status.
pub fn exit_of(status: Status) -> ExitCode
    ensures { exit_status result ≡ exit_code_of status }
{
    ExitCode::from(status.exit_code())
}

//! Whether a command is refused.
ghost use Rattle.std.specs.Prelude.{◌≢◌, Err};
ghost use Rattle.lsys_rules.specs.Applying.{IsChecked};
ghost use Rattle.lsys_rules.specs.declared.refusal.Refusal.TheVariants.{Memory};

use crate::command::Command;
use crate::command_faults::fault_of;
use crate::refusal::Refusal;
use crate::system::System;

/// Whether nothing refuses a command: what `apply` answers, without the system that the command makes. It takes no memory.
///
/// # Errors
///
/// The first refusal, as `apply` has it; never lack of memory.
pub fn check(system: &System, command: &Command) -> Result<(), Refusal>
    ensures refusal { IsChecked system.now command.now result }
    ensures no_memory { result ≢ Err Memory }
{
    match fault_of(system, command) {
        None => Ok(()),
        Some(fault) => Err(command.refusal(fault)),
    }
}

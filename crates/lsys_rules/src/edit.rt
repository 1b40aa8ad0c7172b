//! What a command makes of a system.
ghost use Rattle.std.specs.Prelude.{◌≡◌, None, Some, IfOk};
ghost use Rattle.lsys_spec.specs.Edits.{changed, refusal};
ghost use Rattle.lsys_reading.specs.Parted.{command_of};
ghost use Rattle.lsys_rules.specs.Applying.{IsApplied, IsEditRefusal};
ghost use Rattle.lsys_rules.specs.Faults.{refusal_of_fault};

use crate::changes::changed;
use crate::command::Command;
use crate::command_faults::fault_of;
use crate::faults::{Cause, Fault};
use crate::refusal::Refusal;
use crate::system::System;
use lsys_reading::CommandParts;
use std::alloc::{AllocError, Global};

/// The system after an edit; for a query an equal system.
///
/// # Errors
///
/// The first refusal in the order version, name, duplicate, mixed, label, table, level, many, each with the column of the token at
/// which the command is refused. It is found without memory; so `Memory` comes only where nothing refuses the command.
pub fn apply(alloc: Global, system: &System, command: &Command) -> Result<System, Refusal>
    ensures { IsApplied system.now command.now result }
{
    if let Some(fault) = fault_of(system, command) {
        return Err(command.refusal(fault));
    }
    Ok(accepted(alloc, system, command)?)
}

// The system after a command that nothing refuses. With another seed it shares what the old one has.
fn accepted(alloc: Global, system: &System, command: &Command) -> Result<System, AllocError>
    requires { refusal system.now (command_of command.now.tokens) ≡ None }
    ensures { IfOk result (λ next. next ≡ changed system.now (command_of command.now.tokens)) }
{
    let edit = command.parts();
    if let CommandParts::Seed(seed) = edit {
        return Ok(system.clone()?.with_seed(*seed));
    }
    let parts = changed(alloc, system.parts(), command.tokens(), edit)?;
    System::of(alloc, parts, system.seed())
}

impl Command {
    // A fault by its column.
    pub(crate) fn refusal(&self, fault: Fault) -> Refusal
        ensures { IsEditRefusal self.now (Some (refusal_of_fault fault)) result }
    {
        let column = self.column(fault.place);
        match fault.cause {
            Cause::Version => Refusal::Version { column },
            Cause::Name => Refusal::Name { column },
            Cause::Duplicate => Refusal::Duplicate { column },
            Cause::Mixed => Refusal::Mixed { column },
            Cause::Label => Refusal::Label { column },
            Cause::Table => Refusal::Table { column },
            Cause::Level => Refusal::Level { column },
            Cause::TooMany => Refusal::TooMany { column },
        }
    }
}

//! What is told of what the container refuses.

ghost use Rattle.container_model.specs.declared.fault.ContainerFault.TheVariants as container;
ghost use Rattle.script_model.specs.declared.answer.Told.TheVariants as told;
ghost use Rattle.script_container.specs.declared.fault.ScriptFault.TheVariants.{NoMemory};
ghost use Rattle.std.specs.Prelude.{◌≡◌, ◌≢◌, IfErr, IfOk};

use container_model::fault::ContainerFault;
use script_container::fault::ScriptFault;
use script_model::answer::Told;

/// What is told of a fault of the container; want of memory ends the script.
pub fn refusal(fault: ContainerFault) -> Result<Told, ScriptFault>
    ensures told { IfOk result (λ t. (t ≡ told.Fault fault) × (fault ≢ container.NoMemory)) }
    ensures lacking { IfErr result (λ e. e ≡ NoMemory) }
{
    match fault {
        ContainerFault::NoMemory => Err(ScriptFault::NoMemory),
        _ => Ok(Told::Fault(fault)),
    }
}

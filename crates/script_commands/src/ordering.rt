//! The commands of the container's user.

ghost use Rattle.container_model.specs.Commands.{on_command};
ghost use Rattle.container_model.specs.declared.command.Command.TheVariants as asks;
ghost use Rattle.script_model.specs.Answers.{told_by};
ghost use Rattle.script_model.specs.Containers.{record_of};
ghost use Rattle.script_model.specs.Courses.{but_starts, course, is_unraised, starts_in};
ghost use Rattle.script_model.specs.Events.{Stepped};
ghost use Rattle.script_model.specs.Orders.{IsBegun, IsReadied, asked, behind_given, orders};
ghost use Rattle.script_model.specs.declared.command.ScriptCommand.TheVariants as script;
ghost use Rattle.script_model.specs.declared.step.Step.{Step};
ghost use Rattle.script_container.specs.Known.{IsKnown, Leaves};
ghost use Rattle.script_container.specs.Servers.{servers, turned};
ghost use Rattle.script_links.specs.Going.{IsGoingOn, LeavesGoing};
ghost use Rattle.script_links.specs.Links.{AreHeld, HoldFor};
ghost use Rattle.script_commands.specs.Starts.{AreIn};
ghost use Rattle.std.specs.Prelude.{◌≡◌, ◌∷◌, Bool, [], false, true, IfOk, List, OnOk, Some, ℕ};

use crate::ending::end_asked;
use crate::launching::start_asked;
use container_core::container::ContainerCore;
use container_model::answer::Answer;
use container_model::command::Command;
use script_container::container::command;
use script_container::fault::ScriptFault;
use script_container::saves::save_all;
use script_links::progress::Progress;
use script_model::answer::Told;
use script_model::host::Host;
use script_opens::refusals::refusal;
use script_texts::answers::made_by;
use std::alloc::Global;
use store_model::disk::Disk;

/// Does what the container asks for: starts servers, ends servers, and commits files. What is to be sent is pending,
/// and is sent with the next turn.
fn act<H: Host>(
    alloc: Global,
    host: &mut H,
    progress: &mut Progress,
    answer: &Answer,
) -> Result<(), ScriptFault>
    requires going { IsGoingOn ⟦<H::Disk as Disk>⟧ (H.told host.old) progress.old }
    requires wanted { AreIn (course (H.told host.old)).unstarted (starts_in answer.now.actions) }
    requires raised { progress.old.core.session ≡ 0 → (course (H.told host.old)).unstarted ≡ [] }
    ensures leaves { LeavesGoing ⟦<H::Disk as Disk>⟧ result (H.told host.new) progress.new }
    ensures turning { turned (H.told host.new) ≡ turned (H.told host.old) }
    ensures ordered { but_starts (course (H.told host.new)) ≡ but_starts (course (H.told host.old)) }
    ensures tried { OnOk result ((course (H.told host.new)).unstarted ≡ []) }
    ensures holding { (f : ℕ → Bool) → AreHeld f progress.old.links.items → HoldFor f progress.new.links.items }
{
    start_asked(alloc, host, progress, answer)?;
    end_asked(alloc, host, progress, answer)?;
    save_all(
        alloc,
        host,
        &mut progress.core,
        answer,
        &mut progress.noticed,
    )
}

/// Gives the container a user's command, and does what it asks for. A start comes where it has a session, or was to get
/// one by the command before.
fn give<H: Host>(
    alloc: Global,
    host: &mut H,
    progress: &mut Progress,
    ordered: Command,
) -> Result<Told, ScriptFault>
    requires readied { IsReadied ordered (record_of (H.told host.old)) (asked (H.told host.old)) }
    requires going { IsGoingOn ⟦<H::Disk as Disk>⟧ (H.told host.old) progress.old }
    requires idle { (course (H.told host.old)).unstarted ≡ [] }
    ensures leaves { LeavesGoing ⟦<H::Disk as Disk>⟧ result (H.told host.new) progress.new }
    ensures turning { turned (H.told host.new) ≡ turned (H.told host.old) }
    ensures ordered { but_starts (course (H.told host.new))
        ≡ but_starts (course (Stepped (Step.Command ordered) ∷ H.told host.old)) }
    ensures tried { OnOk result ((course (H.told host.new)).unstarted ≡ []) }
    ensures answered { IfOk result (λ t. t ≡ told_by (on_command progress.old.core ordered)) }
    ensures holding { (f : ℕ → Bool) → AreHeld f progress.old.links.items → HoldFor f progress.new.links.items }
{
    match command(alloc, host, &mut progress.core, ordered) {
        Ok(answer) => {
            act(alloc, host, progress, &answer)?;
            Ok(made_by(&answer))
        }
        Err(fault) => refusal(fault),
    }
}

/// Whether a command is to start a server in a container that has no session yet.
#[tactic(auto, using(crate::proofs::Ordered::readied_other, crate::proofs::Ordered::readied_in))]
fn is_first_start(core: &ContainerCore, ordered: &Command) -> bool
    ensures exact { result ≡ is_unraised core.now ordered.now }
    ensures first { result ≡ true → ordered.now ≡ asks.Start }
    ensures other { (steps : List Step) → result ≡ false → IsReadied ordered.now core.now steps }
{
    match ordered {
        Command::Start => core.session() == 0,
        _ => false,
    }
}

/// Has the session of a container raised that has none: its first frame's file is to be saved. No server is started by
/// that, and none ended.
fn raise<H: Host>(
    alloc: Global,
    host: &mut H,
    core: &mut ContainerCore,
    noticed: &mut Option<Told>,
) -> Result<Told, ScriptFault>
    requires known { IsKnown ⟦<H::Disk as Disk>⟧ (H.told host.old) core.old noticed.old }
    requires none { core.old.session ≡ 0 }
    requires idle { (course (H.told host.old)).unstarted ≡ [] }
    ensures leaves { Leaves ⟦<H::Disk as Disk>⟧ result (H.told host.new) core.new noticed.new }
    ensures serving { servers (H.told host.new) ≡ servers (H.told host.old) }
    ensures ordered { but_starts (course (H.told host.new))
        ≡ but_starts (course (Stepped (Step.Command asks.Session) ∷ H.told host.old)) }
    ensures tried { OnOk result ((course (H.told host.new)).unstarted ≡ []) }
    ensures answered { IfOk result (λ t. t ≡ told_by (on_command core.old asks.Session)) }
{
    match command(alloc, host, core, Command::Session) {
        Ok(answer) => {
            save_all(alloc, host, core, &answer, noticed)?;
            Ok(made_by(&answer))
        }
        Err(fault) => refusal(fault),
    }
}

/// Starts a server in a container that has no session: first its session is raised. Gives what is told of the start,
/// or, where there is no session then either, of what was to raise it.
fn start_first<H: Host>(
    alloc: Global,
    host: &mut H,
    progress: &mut Progress,
) -> Result<Told, ScriptFault>
    requires going { IsGoingOn ⟦<H::Disk as Disk>⟧ (H.told host.old) progress.old }
    requires none { progress.old.core.session ≡ 0 }
    requires idle { (course (H.told host.old)).unstarted ≡ [] }
    ensures leaves { LeavesGoing ⟦<H::Disk as Disk>⟧ result (H.told host.new) progress.new }
    ensures turning { turned (H.told host.new) ≡ turned (H.told host.old) }
    ensures ordered { OnOk result (orders (H.told host.new) ≡ behind_given asks.Start (orders (H.told host.old))) }
    ensures begun { IsBegun (script.Container asks.Start) (orders (H.told host.old)) (orders (H.told host.new)) }
    ensures standing { (course (H.told host.new)).begun ≡ (course (H.told host.old)).begun }
    ensures first { IfOk result (λ t. ((course (H.told host.new)).commanded ≡ Some t)
        × ((course (H.told host.new)).unstarted ≡ [])) }
    ensures holding { (f : ℕ → Bool) → AreHeld f progress.old.links.items → HoldFor f progress.new.links.items }
{
    let raised = raise(alloc, host, &mut progress.core, &mut progress.noticed)?;
    let lacks = progress.core.session() == 0;
    let started = give(alloc, host, progress, Command::Start)?;
    if lacks {
        return Ok(raised);
    }
    Ok(started)
}

/// A command of the container's user.
pub(crate) fn order<H: Host>(
    alloc: Global,
    host: &mut H,
    progress: &mut Progress,
    ordered: Command,
) -> Result<Told, ScriptFault>
    requires going { IsGoingOn ⟦<H::Disk as Disk>⟧ (H.told host.old) progress.old }
    requires idle { (course (H.told host.old)).unstarted ≡ [] }
    ensures leaves { LeavesGoing ⟦<H::Disk as Disk>⟧ result (H.told host.new) progress.new }
    ensures turning { turned (H.told host.new) ≡ turned (H.told host.old) }
    ensures ordered { OnOk result (orders (H.told host.new) ≡ behind_given ordered (orders (H.told host.old))) }
    ensures begun { IsBegun (script.Container ordered) (orders (H.told host.old)) (orders (H.told host.new)) }
    ensures standing { (course (H.told host.new)).begun ≡ (course (H.told host.old)).begun }
    ensures first { IfOk result (λ t. ((course (H.told host.new)).commanded ≡ Some t)
        × ((course (H.told host.new)).unstarted ≡ [])) }
    ensures holding { (f : ℕ → Bool) → AreHeld f progress.old.links.items → HoldFor f progress.new.links.items }
{
    if is_first_start(&progress.core, &ordered) {
        return start_first(alloc, host, progress);
    }
    give(alloc, host, progress, ordered)
}

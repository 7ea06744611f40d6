//! The report of a world's present run.

ghost use Rattle.std.specs.Io.KnownBytes.{Appends};
ghost use Rattle.std.specs.Prelude.{◌≡◌, ◌≢◌, IfErr, OnOk};
ghost use Rattle.world_model.specs.Report.{report};
ghost use Rattle.world_run.specs.Shown.{shown};

pub use crate::report_lines::ReportFault;
use crate::report_lines::write_report;
use crate::world::World;
use object_core::embedded::Embedded;
use std::alloc::Global;
use std::io::Write;

impl World {
    /// Writes the report: a line for the container's session, for each frame, for each object, for each activation of a
    /// server that runs which has a frame's grant, and for each content that was counted, by the container and then by
    /// the servers.
    ///
    /// Refused for want of memory, where nothing is written, and where a write fails.
    pub fn report<W: Write>(&self, alloc: Global, writer: &mut W) -> Result<(), ReportFault>
        ensures reported { OnOk result (Appends (W.contents writer.old) (W.contents writer.new)
            (report (shown (λ s. (⟦<dyn Embedded as Embedded>⟧ s.boxed.vtable).content s.boxed.value)
            self.now).now)) }
        ensures unwritten { IfErr result (λ fault. fault ≢ ReportFault.Unwritable → writer.new ≡ writer.old) }
    {
        let Ok(holds) = self.runs.state.holds(alloc) else {
            return Err(ReportFault::NoMemory);
        };
        write_report(
            alloc,
            writer,
            self.runs.state.host.core.session(),
            self.runs.state.host.core.all_frames(),
            self.runs.state.host.core.all_objects(),
            &holds,
            &self.runs.state.host.container_done,
            &self.runs.state.host.server_done,
        )
    }
}

//! Worked runs, computed by the definitions. Each function is empty: its contract is the law, which is proved.

ghost use Rattle.world_model.specs.GrantRuns.{WorkedGrants};
ghost use Rattle.world_model.specs.OpenRuns.{WorkedOpens};
ghost use Rattle.world_model.specs.RenameRuns.{WorkedRenames};
ghost use Rattle.world_model.specs.Runs.{WorkedRuns};

/// A note that is made, edited and saved: what each event is answered, and what is reported. The same where its server
/// crashes before the save, and where it crashes once the commit is asked; and where the commit fails, and is resolved
/// as kept or as lost. Then the limits of frames, objects, servers and numbers; what is deleted and killed; writes that
/// are taken and not; a note that is closed and runs again; and a session that is lost, kept, and asked in vain.
pub fn worked_runs()
    ensures { WorkedRuns }
{}

/// Objects that take the menus and border of their frame in turn; a server that crashes while its note holds them; a
/// drawing that gets no border and offers them back; a save of a note that holds them, and its close.
pub fn worked_grants()
    ensures { WorkedGrants }
{}

/// A file that is opened beside a note that runs: its objects, what runs of them, and what isn't opened, each for its
/// reason. Opened as the first frame, it gets the next session.
pub fn worked_opens()
    ensures { WorkedOpens }
{}

/// A note that is saved under another name: each answer and the report, and files that are opened then. The same where
/// its server ends meanwhile, where it is passive, and where the commit is lost; and names that are busy.
pub fn worked_renames()
    ensures { WorkedRenames }
{}

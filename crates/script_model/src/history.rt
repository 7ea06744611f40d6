//! What a host was asked and answered, which only clauses read.

ghost use Rattle.script_model.specs.Events.{Connected, Ended, Found, Heard, Opened, Sent, Shut, Started, Stepped};
ghost use Rattle.script_model.specs.Histories.{told_in};
ghost use Rattle.std.specs.Prelude.{◌≡◌, [], ◌∷◌, option_copied};

use crate::calls::Calls;
use crate::step::Step;
use crate::values::Values;

/// What a host was asked and answered, and what the container was given meanwhile. It takes no memory.
#[derive(Drop)]
pub struct History<D> {
    pub(crate) calls: Calls,
    pub(crate) steps: Values<Step, ()>,
    pub(crate) disks: Values<D, ()>,
}

/// The numbers of the calls.
const STARTED: u64 = 0;

const CONNECTED: u64 = 1;

const SENT: u64 = 2;

const HEARD: u64 = 3;

const ENDED: u64 = 4;

const STEPPED: u64 = 5;

const OPENED: u64 = 6;

const FOUND: u64 = 7;

const SHUT: u64 = 8;

impl<D> History<D> {
    /// Nothing was asked.
    pub fn new() -> History<D>
        ensures { told_in result ≡ [] }
    {
        History {
            calls: Calls::new(),
            steps: Values::new(),
            disks: Values::new(),
        }
    }

    /// A server of a session was started, or it wasn't.
    pub fn started(&mut self, session: u32, inc: u32, ok: bool)
        ensures { told_in self.new ≡ Started session inc ok ∷ told_in self.old }
    {
        self.calls.note(
            &[STARTED, u64::from(inc), u64::from(ok)],
            &session.to_le_bytes(),
        );
    }

    /// A link was made anew, or it wasn't.
    pub fn connected(&mut self, inc: u32, ok: bool)
        ensures { told_in self.new ≡ Connected inc ok ∷ told_in self.old }
    {
        self.calls
            .note(&[CONNECTED, u64::from(inc), u64::from(ok)], &[]);
    }

    /// Bytes were sent, or they weren't.
    pub fn sent(&mut self, inc: u32, bytes: &[u8], ok: bool)
        ensures { told_in self.new ≡ Sent inc bytes.now ok ∷ told_in self.old }
    {
        self.calls
            .note(&[SENT, u64::from(inc), u64::from(ok)], bytes);
    }

    /// Bytes came, or the read failed.
    pub fn heard(&mut self, inc: u32, bytes: &[u8], ok: bool)
        ensures { told_in self.new ≡ Heard inc bytes.now ok ∷ told_in self.old }
    {
        self.calls
            .note(&[HEARD, u64::from(inc), u64::from(ok)], bytes);
    }

    /// A server was ended and awaited.
    pub fn ended(&mut self, inc: u32)
        ensures { told_in self.new ≡ Ended inc ∷ told_in self.old }
    {
        self.calls.note(&[ENDED, u64::from(inc), 1], &[]);
    }

    /// The disk of a file was opened, or it wasn't.
    pub fn opened(&mut self, name: &[u8], disk: Option<&D>)
        ensures { told_in self.new ≡ Opened name.now (option_copied disk.entry) ∷ told_in self.old }
    {
        match disk {
            Some(disk) => {
                self.calls.note(&[OPENED, 0, 1], name);
                self.disks = self.disks.and(disk, &());
            }
            None => self.calls.note(&[OPENED, 0, 0], name),
        }
    }

    /// The disk of a file was looked for, and given or not.
    pub fn found(&mut self, name: &[u8], disk: Option<&D>)
        ensures { told_in self.new ≡ Found name.now (option_copied disk.entry) ∷ told_in self.old }
    {
        match disk {
            Some(disk) => {
                self.calls.note(&[FOUND, 0, 1], name);
                self.disks = self.disks.and(disk, &());
            }
            None => self.calls.note(&[FOUND, 0, 0], name),
        }
    }

    /// The disk of a file was given back.
    pub fn shut(&mut self, name: &[u8], disk: &D)
        ensures { told_in self.new ≡ Shut name.now disk.now ∷ told_in self.old }
    {
        self.calls.note(&[SHUT, 0, 1], name);
        self.disks = self.disks.and(disk, &());
    }

    /// Something happened to the container.
    pub fn stepped(&mut self, step: &Step)
        ensures { told_in self.new ≡ Stepped step.now ∷ told_in self.old }
    {
        self.calls.note(&[STEPPED, 0, 1], &[]);
        self.steps = self.steps.and(step, &());
    }
}

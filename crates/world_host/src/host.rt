//! The host of a container: what a world keeps besides its servers and its stock.

ghost use Rattle.std.specs.Prelude.{Some, [], ◌∷◌, ◌++◌, ◌+◌, ◌≤◌, ◌<◌, ◌^◌, ◌≡◌, IfErr, IfOk, OnErr, OnOk, Ok, length};
ghost use Rattle.std.specs.Prelude.{map, nat_le, false, vec_len, vec_capacity};
ghost use Rattle.std.specs.List.{range_with_len};
ghost use Rattle.container_model.specs.Commands.{on_command};
ghost use Rattle.container_model.specs.Messages.{on_message, on_reap};
ghost use Rattle.container_model.specs.Record.{counts_none};
ghost use Rattle.world_model.specs.World.{messages_of, commits_of, of_container, joined, uncounted, took, commanded};
ghost use Rattle.world_model.specs.World.{owners_by, empty_world, MOST_EVENTS};
ghost use Rattle.world_model.specs.declared.logs.EventAnswer.TheVariants as told;
ghost use Rattle.world_host.specs.Logging.{forged, heard};
ghost use Rattle.world_host.specs.Servers.{ends_in, ends_of, starts_of};
ghost use Rattle.world_host.specs.Rooms.{HasLogRoom, IsBarred, IsRoom, most};
ghost use Rattle.world_host.specs.View.{bare, started};

use crate::taking::{entry, log};
use container_core::container::{ContainerCore, Limits};
use container_model::answer::{Action, Answer, Done};
use container_model::command::Command;
use container_model::fault::ContainerFault;
use container_model::server_link::ServerLink;
use message_values::items::Items;
use message_values::message::Message;
use std::alloc::{AllocError, Global};
use std::mem::replace;
use world_model::event::{Stop, copy_command};
use world_model::logs::{Document, EventAnswer, File, Outcome, Sent, ServerDone, Taken};

/// The host of a world's container: what the world keeps besides its servers and its stock, the container, the files
/// and the logs.
#[derive(Drop)]
pub struct Host {
    /// The container.
    pub core: ContainerCore,
    /// The files, each under its name.
    pub files: Vec<File>,
    /// The messages that were sent, by their places from 1.
    pub sent: Vec<Sent>,
    /// The object that each activation was made for, by the activations' numbers from 1.
    pub owners: Vec<u32>,
    /// What each event was answered, by its number from 1.
    pub answers: Vec<EventAnswer>,
    /// The contents that the container took as work contents.
    pub taken: Vec<Taken>,
    /// What the container counted.
    pub container_done: Vec<Done>,
    /// What the servers counted.
    pub server_done: Vec<ServerDone>,
    /// The document of each frame's last counted commit.
    pub counted: Vec<Option<Document>>,
    /// The servers, by their incarnations, of which messages were forged.
    pub hostile: Vec<u32>,
    // What the last step took of room and didn't keep, for the next one.
    pub(crate) room: Room,
}

/// The servers that a step of the container ends, and those that it starts.
#[derive(Drop)]
pub struct Servers {
    /// The incarnations of those that end.
    pub ends: Vec<u32>,
    /// The incarnations of those that start.
    pub starts: Vec<u32>,
}

/// Adds what room was taken for.
pub fn add<T: Drop>(items: &mut Vec<T>, item: T)
    requires { vec_len items.old < vec_capacity items.old }
    ensures added { items.new.items ≡ items.old.items ++ item ∷ [] }
    ensures len { vec_len items.new ≡ vec_len items.old + 1 }
    ensures capacity { vec_capacity items.old ≤ vec_capacity items.new }
{
    match items.push(item) {
        Ok(()) => {}
        Err(_) => unreachable!(),
    }
}

/// Adds all of a list that room was taken for.
pub fn add_all<T: Drop>(items: &mut Vec<T>, mut more: Vec<T>)
    requires { vec_len items.old + vec_len more ≤ vec_capacity items.old }
    ensures { items.new.items ≡ items.old.items ++ more.items }
{
    match items.append(&mut more) {
        Ok(()) => {}
        Err(_) => unreachable!(),
    }
}

/// Room for what a step of the container may lead to.
#[derive(Drop)]
pub(crate) struct Room {
    servers: Servers,
    commits: Vec<u32>,
    places: Vec<u32>,
}

// Shares out what an answer's actions ask for.
fn share(
    actions: Vec<Action>,
    sent: &mut Vec<Sent>,
    ends: &mut Vec<u32>,
    starts: &mut Vec<u32>,
    commits: &mut Vec<u32>,
)
    requires sent_room { vec_len sent.old + vec_len actions ≤ vec_capacity sent.old }
    requires ends_room { vec_len ends.old + vec_len actions ≤ vec_capacity ends.old }
    requires starts_room { vec_len starts.old + vec_len actions ≤ vec_capacity starts.old }
    requires commits_room { vec_len commits.old + vec_len actions ≤ vec_capacity commits.old }
    ensures sent { sent.new.items ≡ sent.old.items ++ map of_container (messages_of actions.items) }
    ensures count { vec_len sent.new ≡ vec_len sent.old + length (messages_of actions.items) }
    ensures few { vec_len sent.new ≤ vec_len sent.old + vec_len actions }
    ensures ends { ends.new.items ≡ ends.old.items ++ ends_of actions.items }
    ensures starts { starts.new.items ≡ starts.old.items ++ starts_of actions.items }
    ensures commits { commits.new.items ≡ commits.old.items ++ commits_of actions.items }
{
    for action in actions {
        match action {
            Action::Send(message) => add(
                sent,
                Sent {
                    message,
                    view: None,
                },
            ),
            Action::Start(inc) => add(starts, inc),
            Action::End(inc) => add(ends, inc),
            Action::Commit(frame) => add(commits, frame),
        }
    }
}

// The places of so many messages, behind so many others.
pub(crate) fn number(places: &mut Vec<u32>, before: usize, count: usize)
    requires empty { places.old.items ≡ [] }
    requires room { count ≤ vec_capacity places.old }
    requires last { before + count < 2 ^ 32 }
    ensures { places.new.items ≡ range_with_len (before + 1) count }
{
    for i in 0..count {
        add(places, (before + 1 + i) as u32);
    }
}

// A new frame has no counted commit.
fn add_uncounted(counted: &mut Vec<Option<Document>>, frame: Option<u32>)
    requires { vec_len counted.old < vec_capacity counted.old }
    ensures { counted.new.items ≡ counted.old.items ++ uncounted frame }
{
    match frame {
        Some(_) => add(counted, None),
        None => {}
    }
}

// The object of a new activation is kept.
fn add_owner(owners: &mut Vec<u32>, command: &Command)
    requires { vec_len owners.old < vec_capacity owners.old }
    ensures { owners.new.items ≡ owners.old.items ++ owners_by command.now }
{
    match command {
        Command::Run(object, _) => add(owners, *object),
        _ => {}
    }
}

// A list emptied, with room for so many.
fn emptied(mut items: Vec<u32>, count: usize) -> Result<Vec<u32>, AllocError>
    ensures empty { IfOk result (λ v. v.items ≡ []) }
    ensures room { IfOk result (λ v. count ≤ vec_capacity v) }
{
    items.clear();
    items.reserve(count)?;
    Ok(items)
}

// What stands in a list, without the room behind it, which the list keeps for the next step. Where memory for that is
// wanting, the room goes along.
fn taken_from(alloc: Global, items: &mut Vec<u32>) -> Vec<u32>
    ensures { result.items ≡ items.old.items }
{
    match Vec::from_slice(alloc, items) {
        Ok(exact) => exact,
        Err(_) => replace(items, Vec::new(alloc)),
    }
}

impl Room {
    // No room.
    fn none(alloc: Global) -> Room {
        Room {
            servers: Servers {
                ends: Vec::new(alloc),
                starts: Vec::new(alloc),
            },
            commits: Vec::new(alloc),
            places: Vec::new(alloc),
        }
    }

    // Room for so many actions, where room was taken before.
    fn for_actions(self, count: usize) -> Result<Room, AllocError>
        ensures { IfOk result (λ r. IsRoom count r) }
    {
        let Room {
            servers: Servers { ends, starts },
            commits,
            places,
        } = self;
        let servers = Servers {
            ends: emptied(ends, count)?,
            starts: emptied(starts, count)?,
        };
        Ok(Room {
            servers,
            commits: emptied(commits, count)?,
            places: emptied(places, count)?,
        })
    }
}

impl Host {
    /// Nothing has happened.
    pub fn new(alloc: Global, limits: Limits) -> Host
        requires { limits.numbers ≤ 1000000 }
        ensures { bare result ≡ empty_world limits.numbers [] }
    {
        Host {
            core: ContainerCore::new(alloc, limits),
            files: Vec::new(alloc),
            sent: Vec::new(alloc),
            owners: Vec::new(alloc),
            answers: Vec::new(alloc),
            taken: Vec::new(alloc),
            container_done: Vec::new(alloc),
            server_done: Vec::new(alloc),
            counted: Vec::new(alloc),
            hostile: Vec::new(alloc),
            room: Room::none(alloc),
        }
    }

    /// Whether a world takes no more events.
    pub fn is_full(&self) -> bool
        ensures { result ≡ nat_le MOST_EVENTS (length self.now.answers.items) }
    {
        self.answers.len() >= 10_000
    }

    /// No step of the container asks for more actions.
    pub fn most(&self) -> usize
        ensures { result ≡ most self.now.core }
    {
        self.core.all_objects().len() + self.core.all_frames().len() + 1
    }

    // Room in the logs for a step with so many actions.
    pub(crate) fn reserve(&mut self, count: usize) -> Result<(), AllocError>
        ensures room { OnOk result (HasLogRoom count self.new) }
        ensures kept { bare self.new ≡ bare self.old }
    {
        self.sent.reserve(count)?;
        self.answers.reserve(1)?;
        self.counted.reserve(1)?;
        if self.sent.len() + count >= 0x1_0000_0000 {
            return Err(AllocError);
        }
        Ok(())
    }

    // Room for any step of the container.
    pub(crate) fn make_room(&mut self, alloc: Global) -> Result<Room, AllocError>
        ensures room { IfOk result (λ r. IsRoom (most self.old.core) r) }
        ensures logs { OnOk result (HasLogRoom (most self.old.core) self.new) }
        ensures kept { bare self.new ≡ bare self.old }
    {
        let count = self.most();
        let room = replace(&mut self.room, Room::none(alloc)).for_actions(count)?;
        self.reserve(count)?;
        Ok(room)
    }

    // Keeps what a step of the container asks for; gives the servers that it ends and starts.
    pub(crate) fn join(&mut self, alloc: Global, answer: Answer, room: Room) -> Servers
        requires logs { HasLogRoom (length answer.actions) self.old }
        requires room { IsRoom (length answer.actions) room }
        ensures joined { joined (bare self.old) (counts_none self.old.core answer)
            ≡ started (bare self.new) result.starts.items }
        ensures ends { result.ends.items ≡ ends_of answer.actions }
        ensures few { length result.starts.items ≤ length answer.actions }
    {
        let Answer {
            frame,
            objects,
            server,
            taken,
            refused,
            no_tools,
            actions,
        } = answer;
        let Room {
            servers: Servers {
                mut ends,
                mut starts,
            },
            mut commits,
            mut places,
        } = room;
        let before = self.sent.len();
        share(
            actions.into_vec(),
            &mut self.sent,
            &mut ends,
            &mut starts,
            &mut commits,
        );
        number(&mut places, before, self.sent.len() - before);
        add_uncounted(&mut self.counted, frame);
        let outcome = Outcome {
            frame,
            objects,
            server,
            taken,
            refused,
            no_tools,
            sent: Items::from_vec(taken_from(alloc, &mut places)),
            commits: Items::from_vec(taken_from(alloc, &mut commits)),
        };
        add(&mut self.answers, EventAnswer::Took(outcome));
        let servers = Servers {
            ends: taken_from(alloc, &mut ends),
            starts: taken_from(alloc, &mut starts),
        };
        self.room = Room {
            servers: Servers { ends, starts },
            commits,
            places,
        };
        servers
    }

    // Keeps why the container refused an event; no server ends or starts.
    pub(crate) fn refuse(&mut self, fault: ContainerFault, room: Room) -> Servers
        requires { vec_len self.old.answers < vec_capacity self.old.answers }
        ensures kept { bare self.new ≡ record (bare self.old) {
          answers = self.old.answers.items
              ++ told.Refused fault ∷ [];
        } }
        ensures none { result ≡ room.servers }
    {
        add(&mut self.answers, EventAnswer::Refused(fault));
        room.servers
    }

    /// A command of a user. Gives the servers that it ends and starts.
    ///
    /// Refused for want of memory alone. Then nothing changes.
    pub fn command(&mut self, alloc: Global, command: &Command) -> Result<Servers, AllocError>
        ensures taken { IfOk result (λ s. commanded (bare self.old) command.now
            (on_command self.old.core command.now) ≡ started (bare self.new) s.starts.items) }
        ensures ends { IfOk result (λ s. s.ends.items ≡ ends_in (on_command self.old.core command.now)) }
        ensures few { IfOk result (λ s. vec_len s.starts ≤ most self.old.core) }
        ensures kept { OnErr result (bare self.new ≡ bare self.old) }
    {
        let room = self.make_room(alloc)?;
        self.owners.reserve(1)?;
        match self.core.command(alloc, copy_command(alloc, command)?) {
            Ok(answer) => {
                add_owner(&mut self.owners, command);
                Ok(self.join(alloc, answer, room))
            }
            Err(ContainerFault::NoMemory) => Err(AllocError),
            Err(fault) => Ok(self.refuse(fault, room)),
        }
    }

    /// A message comes to the container from its place among those that were sent. A content of it that is taken is
    /// logged, with what the container's record held of its object just before. Gives the servers that are ended and
    /// started.
    ///
    /// Refused for want of memory alone. Then nothing changes.
    pub fn tell(
        &mut self,
        alloc: Global,
        place: u32,
        link: ServerLink,
        message: Message,
    ) -> Result<Servers, AllocError>
        ensures taken { IfOk result (λ s. heard (bare self.old) (Some place) link message
            ≡ started (bare self.new) s.starts.items) }
        ensures ends { IfOk result (λ s. s.ends.items ≡ ends_in (on_message self.old.core link message)) }
        ensures few { IfOk result (λ s. vec_len s.starts ≤ most self.old.core) }
        ensures kept { OnErr result (bare self.new ≡ bare self.old) }
    {
        let room = self.make_room(alloc)?;
        self.taken.reserve(1)?;
        let entry = entry(Some(place), &message, self.core.all_objects());
        match self.core.on_message(alloc, link, message) {
            Ok(answer) => {
                log(&mut self.taken, answer.taken, entry);
                Ok(self.join(alloc, answer, room))
            }
            Err(ContainerFault::NoMemory) => Err(AllocError),
            Err(fault) => Ok(self.refuse(fault, room)),
        }
    }

    /// A message comes to the container on the link of a server that needn't have sent it, and so is hostile from now
    /// on. A content of it that is taken is logged, without a place. Gives the servers that are ended and started.
    ///
    /// Refused for want of memory alone. Then nothing changes.
    pub fn forge(
        &mut self,
        alloc: Global,
        inc: u32,
        message: Message,
    ) -> Result<Servers, AllocError>
        ensures taken { IfOk result (λ s. forged (bare self.old) inc message ≡ started (bare self.new) s.starts.items) }
        ensures ends { IfOk result
            (λ s. s.ends.items ≡ ends_in
            (on_message self.old.core (record { session = self.old.core.session; inc = inc }) message)) }
        ensures few { IfOk result (λ s. vec_len s.starts ≤ most self.old.core) }
        ensures kept { OnErr result (bare self.new ≡ bare self.old) }
    {
        let room = self.make_room(alloc)?;
        self.taken.reserve(1)?;
        self.hostile.reserve(1)?;
        let entry = entry(None, &message, self.core.all_objects());
        let link = ServerLink {
            session: self.core.session(),
            inc,
        };
        match self.core.on_message(alloc, link, message) {
            Ok(answer) => {
                log(&mut self.taken, answer.taken, entry);
                add(&mut self.hostile, inc);
                Ok(self.join(alloc, answer, room))
            }
            Err(ContainerFault::NoMemory) => Err(AllocError),
            Err(fault) => {
                add(&mut self.hostile, inc);
                Ok(self.refuse(fault, room))
            }
        }
    }

    /// The end of a server is told to the container. Gives the servers that are ended and started.
    ///
    /// Refused for want of memory alone. Then nothing changes.
    pub fn reap(&mut self, alloc: Global, inc: u32) -> Result<Servers, AllocError>
        ensures taken { IfOk result (λ s. took (bare self.old) (on_reap self.old.core inc)
            ≡ started (bare self.new) s.starts.items) }
        ensures ends { IfOk result (λ s. s.ends.items ≡ ends_in (on_reap self.old.core inc)) }
        ensures few { IfOk result (λ s. vec_len s.starts ≤ most self.old.core) }
        ensures kept { OnErr result (bare self.new ≡ bare self.old) }
    {
        let room = self.make_room(alloc)?;
        match self.core.on_reap(alloc, inc) {
            Ok(answer) => Ok(self.join(alloc, answer, room)),
            Err(ContainerFault::NoMemory) => Err(AllocError),
            Err(fault) => Ok(self.refuse(fault, room)),
        }
    }

    /// Room for the answer of one event.
    ///
    /// Refused: `EventLimit` where a world takes no more events, else `NoMemory`.
    pub fn open(&mut self) -> Result<(), Stop>
        ensures open { OnOk result (nat_le MOST_EVENTS (length self.old.answers.items) ≡ false) }
        ensures room { OnOk result (vec_len self.new.answers < vec_capacity self.new.answers) }
        ensures barred { IfErr result (IsBarred (nat_le MOST_EVENTS (length self.old.answers.items))) }
        ensures kept { bare self.new ≡ bare self.old }
    {
        if self.is_full() {
            return Err(Stop::EventLimit);
        }
        match self.answers.reserve(1) {
            Ok(()) => Ok(()),
            Err(_) => Err(Stop::NoMemory),
        }
    }
}

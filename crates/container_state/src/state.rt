//! What a container is made of.

use container_checks::frames::Frames;
use container_checks::lookups::place_object;
use container_checks::objects::Objects;
use container_checks::servers::Servers;
use container_model::record::{Frame, Object};
use std::alloc::Global;
use std::marker::Model;

/// The frames and objects of a container, and the servers that it started: its record as it is kept. Whoever holds it
/// keeps what stays true of a record, and its methods ask for that where they need it.
#[derive(Drop)]
pub struct State {
    pub session: u32,
    pub frames: Frames,
    pub objects: Objects,
    pub servers: Servers,
    pub last_object: u32,
    pub last_act: u32,
    pub last_g: u32,
    pub numbers: u32,
}

impl Model for State {
    ghost use Rattle.container_model.specs.Record.{Record};

    ghost Value = { Record };

    ghost view = { λ c. record {
      session = c.session;
      frames = c.frames;
      objects = c.objects.list.items;
      servers = c.servers;
      last_object = c.last_object;
      last_act = c.last_act;
      last_g = c.last_g;
      numbers = c.numbers;
    } };
}

impl State {
    ghost use Rattle.std.specs.Prelude.{◌≡◌, option_copied};
    ghost use Rattle.message_values.specs.Found.{find, nth};
    ghost use Rattle.container_model.specs.Record.{empty, is_object};

    /// No frames, objects and servers.
    pub fn new(alloc: Global, numbers: u32) -> State
        ensures { result ≡ empty numbers }
    {
        State {
            session: 0,
            frames: Frames::new(alloc),
            objects: Objects::new(alloc),
            servers: Servers::new(alloc),
            last_object: 0,
            last_act: 0,
            last_g: 0,
            numbers,
        }
    }

    /// The session, 0 until one is counted.
    pub fn session(&self) -> u32
        ensures { result ≡ self.now.session }
    {
        self.session
    }

    /// The frames, by their numbers from 1.
    pub fn frames(&self) -> &[Frame]
        ensures { result.now ≡ self.now.frames }
    {
        self.frames.as_slice()
    }

    /// The objects, in the order in which they were made.
    pub fn objects(&self) -> &[Object]
        ensures { result.now ≡ self.now.objects }
    {
        &self.objects.list
    }

    /// The frame of this number.
    pub fn frame(&self, frame: u32) -> Option<&Frame>
        ensures { option_copied result ≡ nth self.now.frames frame }
    {
        self.frames.get(frame)
    }

    /// The object of this number.
    pub fn object(&self, object: u32) -> Option<&Object>
        ensures { option_copied result ≡ find (is_object object) self.now.objects }
    {
        match place_object(&self.objects, object) {
            Some(place) => Some(&self.objects.list[place]),
            None => None,
        }
    }

    /// The greatest number that is drawn.
    pub fn numbers(&self) -> u32
        ensures { result ≡ self.now.numbers }
    {
        self.numbers
    }
}

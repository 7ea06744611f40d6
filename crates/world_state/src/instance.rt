//! Servers of a world.

ghost use Rattle.std.specs.Prelude.{◌≡◌};
ghost use Rattle.object_core.specs.Kinds.{class_of};
ghost use Rattle.world_model.specs.World.{end_of};
ghost use Rattle.world_state.specs.View.{seen_stocked};

use object_core::embedded::Embedded;
use server_core::server::ServerCore;
use tree_values::class_id::ClassId;
use world_model::life::Life;

/// A server of a world.
#[derive(Drop)]
pub struct Instance {
    pub(crate) life: Life,
    pub(crate) core: ServerCore,
}

// How far the life of a server is once it has ended.
pub(crate) fn end_of(life: Life) -> Life
    ensures { result ≡ end_of life }
{
    match life {
        Life::Running | Life::Ended => Life::Ended,
        Life::Reaped => Life::Reaped,
    }
}

/// An object in stock.
#[derive(Drop)]
pub struct Stocked {
    pub(crate) boxed: Box<dyn Embedded>,
}

impl Stocked {
    /// The class of the object.
    pub(crate) fn class(&self) -> ClassId
        ensures { result ≡ class_of (seen_stocked (λ s. content s.boxed) self.now) }
    {
        self.boxed.class()
    }
}

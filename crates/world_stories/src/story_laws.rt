//! The law of stories.

ghost use Rattle.object_core.specs.Kinds.{Kind};
ghost use Rattle.std.specs.Prelude.{List, ℕ};
ghost use Rattle.world_model.specs.SafeStory.{SafeStory};
ghost use Rattle.world_model.specs.Story.{Story, Tells, empty_story};
ghost use Rattle.world_model.specs.declared.moment.Moment.{Moment};

/// Every story is safe, whatever happens in it, how often its container stops, and whatever messages are forged.
pub fn every_story_is_safe()
    ensures { (numbers : ℕ) (stock : List Kind) (moments : List Moment) (s : Story)
        → Tells (empty_story numbers stock) moments s → SafeStory s }
{}

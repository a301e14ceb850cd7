//! What is told, as laws, and which of this crate's types may move to another thread.
ghost use Rattle.std.specs.Prelude.{◌≡◌, ℕ, List, IsSome};
ghost use Rattle.dc_event.specs.Bytes.{Tape};
ghost use Rattle.dc_event.specs.Kept.{Kept};
ghost use Rattle.dc_event.specs.Quiet.{Quiet};
ghost use Rattle.dc_event.specs.Scripted.{Reel, Shelf};
ghost use Rattle.dc_event.specs.Told.{Tells};

use crate::{
    Inbox, MemorySink, MemorySource, MemoryWorld, QuietSink, QuietSource, Sink, Source, World,
};

/// A quiet source tells what is taken.
pub fn quiet_source_tells()
    ensures { (old new : Tape) → Tells ⟦<QuietSource as Source>⟧.took old new }
{}

/// A memory source tells what is taken.
pub fn memory_source_tells()
    ensures { (old new : Reel) → Tells ⟦<MemorySource as Source>⟧.took old new }
{}

/// A quiet sink tells what is put, as long as its room isn't passed.
pub fn quiet_sink_tells()
    ensures { (old new : Quiet) → IsSome new.bytes → Tells ⟦<QuietSink as Sink>⟧.gained old new }
{}

/// A memory sink tells what is put.
pub fn memory_sink_tells()
    ensures { (old new : Shelf) → Tells ⟦<MemorySink as Sink>⟧.gained old new }
{}

/// A world in memory tells what passed, as long as its history is told.
pub fn memory_world_tells()
    ensures { (old new : Kept) → IsSome new.history → Tells ⟦<MemoryWorld as World>⟧.history old new }
{}

fn movable<T: Send>(value: T) -> T
    ensures { result ≡ value }
{
    value
}

/// The inbox and the objects in memory may move to another thread.
pub fn all_movable(
    inbox: Inbox,
    sources: (QuietSource, MemorySource),
    sinks: (QuietSink, MemorySink),
    world: MemoryWorld,
) -> (
    Inbox,
    (QuietSource, MemorySource),
    (QuietSink, MemorySink),
    MemoryWorld,
)
    ensures inbox { result.0 ≡ inbox }
    ensures sources { result.1 ≡ sources }
    ensures sinks { result.2 ≡ sinks }
    ensures world { result.3 ≡ world }
{
    (
        movable(inbox),
        movable(sources),
        movable(sinks),
        movable(world),
    )
}

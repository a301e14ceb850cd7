//! A sink to which the text of actions is written until a write fails.
ghost use Rattle.std.specs.Prelude.{◌≡◌, Bool, true, false};
ghost use Rattle.dc_event.specs.Causes.{counted};
ghost use Rattle.dc_writer.specs.Fated.{Fated};
ghost use Rattle.dc_script.specs.Text.{action_text};
ghost use Rattle.dc_script.specs.View.{action_of};
ghost use Rattle.dc_script.specs.Written.{Written};

use crate::{Action, write_action};
use dc_event::{Put, Sink};

/// Writes actions to a sink, and nothing more after a write that failed.
#[derive(Drop)]
pub(crate) struct Writer<K: Sink> {
    pub(crate) sink: K,
    pub(crate) start: u64,
    pub(crate) failed: bool,
    /// Where a write has failed, the sink's count is one higher, since nothing more was written.
    pub(crate) ghost caused: { failed ≡ true → K.faults sink ≡ counted start },
    /// Where no write has failed, the count is what it was.
    pub(crate) ghost unfailed: { failed ≡ false → K.faults sink ≡ start },
}

impl<K: Sink> Writer<K> {
    /// A writer over a sink.
    pub(crate) fn new(sink: K) -> Writer<K>
        ensures sink { result.sink ≡ sink }
        ensures start { result.start ≡ K.faults sink }
        ensures failed { result.failed ≡ false }
    {
        let start = sink.faults();
        Writer {
            sink,
            start,
            failed: false,
        }
    }

    /// Gives the sink back.
    pub(crate) fn into_sink(self) -> K
        ensures sink { result ≡ self.sink }
        ensures cause { self.failed ≡ true → K.faults self.sink ≡ counted self.start }
        ensures stays { self.failed ≡ false → K.faults self.sink ≡ self.start }
    {
        self.sink
    }

    /// Writes the text of an action, where no write has failed.
    pub(crate) fn write(&mut self, action: Action<'_>)
        ensures written { Written K.gained self.old.failed self.new.failed self.old.sink (action_text (action_of action.entry)) self.new.sink }
        ensures fated { Fated K.gained K.refused K.faults self.old.failed self.new.failed self.old.sink self.new.sink }
        ensures start { self.new.start ≡ self.old.start }
        ensures stays { self.old.failed ≡ true → self.new.failed ≡ true }
    {
        if self.failed {
            return;
        }
        if let Put::Failed = write_action(&mut self.sink, action) {
            self.failed = true;
        }
    }
}

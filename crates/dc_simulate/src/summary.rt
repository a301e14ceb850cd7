//! What is told of a simulation.
ghost use Rattle.std.specs.Prelude.{◌≡◌, ◌≤◌, ◌+◌, ◌++◌, length, decimal, codes};
ghost use Rattle.arrayvec.specs.ArrayVec.{array_vec_len};
ghost use Rattle.dc_simulation.specs.Loop as model;
ghost use Rattle.dc_simulate.specs.Told.{loop_of};

use arrayvec::ArrayVec;
use dc_core::Core;
use dc_ring::ArenaStore;
use dc_sim::SimWorld;
use dc_store::Store;
use itoa::Buffer;

/// Room for six lines of a word and a number each.
const ROOM: usize = 192;

/// A text, or the front of one.
pub(crate) type Text = ArrayVec<u8, ROOM>;

/// Adds bytes.
fn put(text: &mut Text, bytes: &[u8])
    requires { array_vec_len text.old + length bytes.now ≤ 192 }
    ensures items { text.new.items ≡ text.old.items ++ bytes.now }
    ensures len { array_vec_len text.new ≡ array_vec_len text.old + length bytes.now }
{
    let _ = text.try_extend_from_slice(bytes);
}

/// Adds a line of a word and a number.
fn put_count(text: &mut Text, word: &[u8], number: u64)
    requires word { length word.now ≤ 8 }
    requires room { array_vec_len text.old + 30 ≤ 192 }
    ensures items { text.new.items ≡ text.old.items ++ model.count_line word.now number }
    ensures len { array_vec_len text.new ≤ array_vec_len text.old + 30 }
{
    let mut digits = Buffer::new();
    put(text, word);
    put(text, b" ");
    put(text, digits.format(number).as_bytes());
    put(text, b"\n");
}

/// The six lines.
pub(crate) fn summary(core: &Core<ArenaStore>, world: &SimWorld) -> Text
    ensures { result.items ≡ model.summary (loop_of core.now world.now) }
{
    let counts = core.counts();
    let mut text: Text = ArrayVec::new();
    put_count(&mut text, b"events", world.given());
    put_count(&mut text, b"accepted", counts.accepted);
    put_count(&mut text, b"sent", counts.sent);
    put_count(&mut text, b"dropped", counts.dropped);
    put_count(&mut text, b"active", counts.active as u64);
    put_count(&mut text, b"motion", core.store().motion());
    text
}

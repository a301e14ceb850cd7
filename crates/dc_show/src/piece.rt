//! Pieces of texts.
ghost use Rattle.std.specs.Prelude.{◌≡◌, ℕ, ◌∷◌, ◌++◌, [], length, decimal};
ghost use Rattle.dc_event.specs.Answers.{well_put};
ghost use Rattle.dc_event.specs.Causes.{Fares};
ghost use Rattle.dc_writer.specs.Fated.{Fated};
ghost use Rattle.dc_writer.specs.Written.{Wrote, PutWhole};
ghost use Rattle.dc_model.specs.Address.{address_text};
ghost use Rattle.dc_lookup.specs.Text.{dot, line_end, mx_line};

use crate::names::dot;
use arrayvec::ArrayVec;
use dc_event::{Put, Sink};
use dc_name::Name;
use dc_writer::Writer;

/// Writes a name in text.
pub(crate) fn write_dot<K: Sink>(writer: &mut Writer, sink: &mut K, name: &Name)
    ensures wrote { Wrote K.gained K.faults writer.old sink.old (dot name.now) writer.new sink.new }
    ensures fared { Fated K.gained K.refused K.faults writer.old.failed writer.new.failed sink.old sink.new }
{
    let mut text = ArrayVec::new();
    dot(name, &mut text);
    writer.put(sink, text.as_slice());
}

/// Writes a space and a number.
pub(crate) fn write_space_number<K: Sink>(writer: &mut Writer, sink: &mut K, number: u64)
    ensures wrote { Wrote K.gained K.faults writer.old sink.old (32 ∷ decimal number) writer.new sink.new }
    ensures fared { Fated K.gained K.refused K.faults writer.old.failed writer.new.failed sink.old sink.new }
{
    writer.put(sink, b" ");
    writer.number(sink, number);
}

/// Writes a space and a name in text.
pub(crate) fn write_space_dot<K: Sink>(writer: &mut Writer, sink: &mut K, name: &Name)
    ensures wrote { Wrote K.gained K.faults writer.old sink.old (32 ∷ dot name.now) writer.new sink.new }
    ensures fared { Fated K.gained K.refused K.faults writer.old.failed writer.new.failed sink.old sink.new }
{
    writer.put(sink, b" ");
    write_dot(writer, sink, name);
}

/// Writes the line of a mail exchange.
pub(crate) fn write_mx<K: Sink>(writer: &mut Writer, sink: &mut K, preference: u16, name: &Name)
    ensures wrote { Wrote K.gained K.faults writer.old sink.old (mx_line preference name.now) writer.new sink.new }
    ensures fared { Fated K.gained K.refused K.faults writer.old.failed writer.new.failed sink.old sink.new }
{
    writer.number(sink, preference.into());
    write_space_dot(writer, sink, name);
    writer.put(sink, b"\n");
}

/// Writes an address with a space behind it and a line end, and answers how many bytes that were. Where the sink fails a front of the text was put.
pub fn show_address<K: Sink>(addr: [u8; 4], sink: &mut K) -> Put
    ensures whole { PutWhole K.gained result sink.old (address_text addr ++ 32 ∷ line_end) sink.new }
    ensures fares { Fares K.gained K.refused K.faults (well_put result) sink.old sink.new }
{
    let mut writer = Writer::new();
    writer.address(sink, &addr);
    writer.put(sink, b" \n");
    writer.finish(sink)
}

//! Writing actions to a sink, each at once.
ghost use Rattle.std.specs.Prelude.{◌≡◌, ◌≤◌, length};
ghost use Rattle.dc_event.specs.Answers.{well_put};
ghost use Rattle.dc_event.specs.Causes.{Fares};
ghost use Rattle.dc_model.specs.Line.{hex};
ghost use Rattle.dc_writer.specs.Fated.{Fated};
ghost use Rattle.dc_writer.specs.Written.{PutWhole, Wrote};
ghost use Rattle.dc_script.specs.Text.{action_text};
ghost use Rattle.dc_script.specs.View.{action_of, rest_text};

use crate::action::Action;
use crate::text::{Rest, push_words};
use dc_event::{Put, Sink};
use dc_writer::{Words, Writer};

/// How many bytes are turned into digits at once.
const PIECE: usize = 256;

/// Writes a piece of bytes in hexadecimal digits.
fn write_digits<K: Sink>(writer: &mut Writer, sink: &mut K, piece: &[u8])
    requires { length piece.now ≤ PIECE }
    ensures wrote { Wrote K.gained K.faults writer.old sink.old (hex piece.now) writer.new sink.new }
    ensures fared { Fated K.gained K.refused K.faults writer.old.failed writer.new.failed sink.old sink.new }
{
    let mut digits = [0u8; 2 * PIECE];
    let digits = &mut digits[..2 * piece.len()];
    let Ok(()) = hex::encode_to_slice(piece, digits) else {
        unreachable!();
    };
    writer.put(sink, digits);
}

/// Writes bytes in hexadecimal digits.
fn write_hex<K: Sink>(writer: &mut Writer, sink: &mut K, bytes: &[u8])
    ensures wrote { Wrote K.gained K.faults writer.old sink.old (hex bytes.now) writer.new sink.new }
    ensures fared { Fated K.gained K.refused K.faults writer.old.failed writer.new.failed sink.old sink.new }
{
    let mut at: usize = 0;
    while at < bytes.len() {
        let count = (bytes.len() - at).min(PIECE);
        write_digits(writer, sink, &bytes[at..at + count]);
        at += count;
    }
}

/// Writes what stands at the end of an action's line.
pub(crate) fn write_rest<K: Sink>(writer: &mut Writer, sink: &mut K, rest: Rest<'_>)
    ensures wrote { Wrote K.gained K.faults writer.old sink.old (rest_text rest.entry) writer.new sink.new }
    ensures fared { Fated K.gained K.refused K.faults writer.old.failed writer.new.failed sink.old sink.new }
{
    match rest {
        Rest::Bytes([]) => writer.put(sink, b"-"),
        Rest::Bytes(bytes) => write_hex(writer, sink, bytes),
        Rest::Text(bytes) => writer.put(sink, bytes),
        Rest::Nothing => {}
    }
}

/// Writes the text of one action, a line with its end, and answers its length in bytes. Where a put fails a front of the
/// text was put.
pub fn write_action<K: Sink>(sink: &mut K, action: Action<'_>) -> Put
    ensures put { PutWhole K.gained result sink.old (action_text (action_of action.entry)) sink.new }
    ensures fares { Fares K.gained K.refused K.faults (well_put result) sink.old sink.new }
{
    let mut writer = Writer::new();
    let mut words = Words::new();
    let rest = push_words(&mut words, &action);
    writer.put(sink, words.as_slice());
    write_rest(&mut writer, sink, rest);
    writer.put(sink, b"\n");
    writer.finish(sink)
}

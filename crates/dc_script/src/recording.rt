//! Writing the events of a script to a sink, a line each.
ghost use Rattle.std.specs.Prelude.{◌≡◌, ◌+◌, ◌≤◌, [], ◌∷◌, ◌++◌, length, codes, decimal};
ghost use Rattle.arrayvec.specs.ArrayVec.{array_vec_len};
ghost use Rattle.dc_model.specs.Address.{address_text};
ghost use Rattle.dc_event.specs.Answers.{well_put};
ghost use Rattle.dc_event.specs.Causes.{Fares};
ghost use Rattle.dc_engine.specs.View.{kind_of, event_of};
ghost use Rattle.dc_writer.specs.Fated.{Fated};
ghost use Rattle.dc_writer.specs.Written.{PutWhole, Wrote};
ghost use Rattle.dc_script.specs.EventText.{kind_text, word_if};
ghost use Rattle.dc_script.specs.Script as script;
ghost use Rattle.dc_script.specs.Text.{bytes_text};
ghost use Rattle.dc_script.specs.Recording.{spaced, begun_text, event_line};

use crate::text::Rest;
use crate::write::write_rest;
use dc_event::{Event, Kind, Put, Sink};
use dc_writer::{MOST_WORDS, Words, Writer, push_address, push_all, push_number};

/// Whether the line of an event of this kind has the number of a link or a connection.
fn has_number(kind: Kind) -> bool
    ensures { result ≡ script.has_number (kind_of kind) }
{
    !matches!(kind, Kind::Tick | Kind::Request)
}

/// Whether it has an address and a port.
fn has_sender(kind: Kind) -> bool
    ensures { result ≡ script.has_sender (kind_of kind) }
{
    matches!(
        kind,
        Kind::Request | Kind::Datagram | Kind::LinkBytes | Kind::ConnUp
    )
}

/// Whether it has bytes.
fn has_bytes(kind: Kind) -> bool
    ensures { result ≡ script.has_bytes_word (kind_of kind) }
{
    matches!(
        kind,
        Kind::Request | Kind::Datagram | Kind::LinkBytes | Kind::ConnBytes
    )
}

/// The word of a kind.
fn kind_word(kind: Kind) -> &'static [u8]
    ensures word { result.now ≡ kind_text (kind_of kind) }
    ensures short { length result.now ≤ 11 }
{
    match kind {
        Kind::Tick => b"tick",
        Kind::Request => b"request",
        Kind::Datagram => b"datagram",
        Kind::LinkUp => b"linkup",
        Kind::LinkBytes => b"linkbytes",
        Kind::LinkDown => b"linkdown",
        Kind::BindRefused => b"bindrefused",
        Kind::ConnUp => b"connup",
        Kind::ConnBytes => b"connbytes",
        Kind::ConnDown => b"conndown",
    }
}

/// Adds the moment and the kind with which a line begins.
fn push_kind(text: &mut Words, now: u64, kind: Kind)
    requires { text.old.items ≡ [] }
    ensures items { text.new.items ≡ begun_text now (kind_of kind) }
    ensures len { array_vec_len text.new ≤ 35 }
{
    push_all(text, b"at ");
    push_number(text, now);
    push_all(text, b" ");
    push_all(text, kind_word(kind));
}

/// Adds a space and a number, if it is wanted.
fn push_number_if(text: &mut Words, wanted: bool, number: u64)
    requires { array_vec_len text.old + 21 ≤ MOST_WORDS }
    ensures items { text.new.items ≡ text.old.items ++ spaced (word_if wanted (decimal number)) }
    ensures len { array_vec_len text.new ≤ array_vec_len text.old + 21 }
{
    if wanted {
        push_all(text, b" ");
        push_number(text, number);
    }
}

/// Adds a space and an address, if it is wanted.
fn push_address_if(text: &mut Words, wanted: bool, addr: [u8; 4])
    requires { array_vec_len text.old + 84 ≤ MOST_WORDS }
    ensures items { text.new.items ≡ text.old.items ++ spaced (word_if wanted (address_text addr)) }
    ensures len { array_vec_len text.new ≤ array_vec_len text.old + 84 }
{
    if wanted {
        push_all(text, b" ");
        push_address(text, addr);
    }
}

/// Writes a space and bytes, if they are wanted.
fn write_bytes_if<K: Sink>(writer: &mut Writer, sink: &mut K, wanted: bool, bytes: &[u8])
    ensures wrote { Wrote K.gained K.faults writer.old sink.old (spaced (word_if wanted (bytes_text bytes.now))) writer.new sink.new }
    ensures fared { Fated K.gained K.refused K.faults writer.old.failed writer.new.failed sink.old sink.new }
{
    if wanted {
        writer.put(sink, b" ");
        write_rest(writer, sink, Rest::Bytes(bytes));
    }
}

/// Writes the line of an event with its bytes, and answers its length. What its kind doesn't have isn't written. Where a put fails a front
/// of the line was put.
pub fn write_event<K: Sink>(sink: &mut K, event: Event, bytes: &[u8]) -> Put
    ensures put { PutWhole K.gained result sink.old (event_line (event_of event bytes.now)) sink.new }
    ensures fares { Fares K.gained K.refused K.faults (well_put result) sink.old sink.new }
{
    let mut writer = Writer::new();
    let mut words = Words::new();
    push_kind(&mut words, event.now, event.kind);
    push_number_if(&mut words, has_number(event.kind), event.id);
    push_address_if(&mut words, has_sender(event.kind), event.addr);
    push_number_if(&mut words, has_sender(event.kind), event.port.into());
    writer.put(sink, words.as_slice());
    write_bytes_if(&mut writer, sink, has_bytes(event.kind), bytes);
    writer.put(sink, b"\n");
    writer.finish(sink)
}

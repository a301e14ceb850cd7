//! What each record adds to a text.
ghost use Rattle.std.specs.Prelude.{◌≡◌, ℕ, ◌<◌, ◌∷◌, ◌++◌, List, length, map, flat_map, Some, slice_get};
ghost use Rattle.std.specs.List.{AllByRecursion};
ghost use Rattle.dc_model.specs.Message as model;
ghost use Rattle.dc_model.specs.Marks.{is_answer};
ghost use Rattle.dc_packet.specs.Data.{body_of};
ghost use Rattle.dc_packet.specs.Rows.{named_section};
ghost use Rattle.dc_writer.specs.Fated.{Fated};
ghost use Rattle.dc_writer.specs.Written.{Wrote};
ghost use Rattle.dc_lookup.specs.Text.{address_datum, strings_in, strings, printed, mx_in};
ghost use Rattle.dc_show.specs.Parts.{is_wanted_by, ip_part, txt_part, mx_part};

use crate::piece::write_mx;
use dc_event::Sink;
use dc_packet::{Data, Message, Rr, Section};
use dc_types::{class, rtype};
use dc_writer::Writer;

/// What each record of a message adds to a text.
pub(crate) trait Part {
    /// The text of a record.
    ghost text: { model.Record → List ℕ };

    /// Writes the text of the record of this number.
    fn write<K: Sink>(writer: &mut Writer, sink: &mut K, message: &Message<'_>, at: usize)
        requires at { at < length message.now.records }
        requires names { AllByRecursion (λ r. model.HasNames r.body) message.now.records }
        ensures wrote { (r : model.Record) → slice_get message.now.records at ≡ Some r → Wrote K.gained K.faults writer.old sink.old (text r) writer.new sink.new }
        ensures fared { Fated K.gained K.refused K.faults writer.old.failed writer.new.failed sink.old sink.new };
}

/// Whether a record is an IN record of this type among the answers.
pub(crate) fn is_wanted(wanted: u16, rr: Rr) -> bool
    ensures { result ≡ is_wanted_by wanted (named_section rr.section) rr.kind rr.class }
{
    rr.class == class::IN && is_answer(rr.section) && rr.kind == wanted
}

/// Whether a section is that of the answers.
fn is_answer(section: Section) -> bool
    ensures { result ≡ is_answer (named_section section) }
{
    match section {
        Section::Answer => true,
        Section::Authority | Section::Additional => false,
    }
}

/// Addresses, each with a space behind it.
pub(crate) struct Addresses;

/// Strings.
pub(crate) struct Texts;

/// Mail exchanges, a line each.
pub(crate) struct Exchanges;

/// Writes data that is an address, with a space behind it.
fn write_datum<K: Sink>(writer: &mut Writer, sink: &mut K, item: &Data<'_>)
    ensures wrote { Wrote K.gained K.faults writer.old sink.old (address_datum (body_of item.now)) writer.new sink.new }
    ensures fared { Fated K.gained K.refused K.faults writer.old.failed writer.new.failed sink.old sink.new }
{
    if let Data::Bytes(bytes) = item {
        write_if_address(writer, sink, bytes);
    }
}

/// Writes bytes, where they are an address, with a space behind it.
fn write_if_address<K: Sink>(writer: &mut Writer, sink: &mut K, bytes: &[u8])
    ensures wrote { Wrote K.gained K.faults writer.old sink.old (address_datum (model.bytes bytes.now)) writer.new sink.new }
    ensures fared { Fated K.gained K.refused K.faults writer.old.failed writer.new.failed sink.old sink.new }
{
    if bytes.len() == 4 {
        writer.address(sink, bytes);
        writer.put(sink, b" ");
    }
}

/// A byte of text: `?` where it isn't printable.
fn printed(byte: u8) -> u8
    ensures { result ≡ printed byte }
{
    if byte < 32 || byte > 126 { b'?' } else { byte }
}

/// Writes a byte of TXT data, of whose string so many bytes are left: a length, or a byte of the string. Answers how many are left then.
fn write_next<K: Sink>(writer: &mut Writer, sink: &mut K, left: u8, byte: u8) -> u8
    ensures wrote { (text : List ℕ) × Wrote K.gained K.faults writer.old sink.old text writer.new sink.new
        × ((rest : List ℕ) → map printed (strings left (byte ∷ rest)) ≡ text ++ map printed (strings result rest)) }
    ensures fared { Fated K.gained K.refused K.faults writer.old.failed writer.new.failed sink.old sink.new }
{
    if left == 0 {
        return byte;
    }
    writer.put(sink, &[printed(byte)]);
    left - 1
}

/// Writes the strings of TXT data.
fn write_strings<K: Sink>(writer: &mut Writer, sink: &mut K, bytes: &[u8])
    ensures wrote { Wrote K.gained K.faults writer.old sink.old (map printed (strings 0 bytes.now)) writer.new sink.new }
    ensures fared { Fated K.gained K.refused K.faults writer.old.failed writer.new.failed sink.old sink.new }
{
    let mut left = 0;
    for byte in bytes {
        left = write_next(writer, sink, left, *byte);
    }
}

/// Writes the strings of data.
fn write_text<K: Sink>(writer: &mut Writer, sink: &mut K, item: &Data<'_>)
    ensures wrote { Wrote K.gained K.faults writer.old sink.old (map printed (strings_in (body_of item.now))) writer.new sink.new }
    ensures fared { Fated K.gained K.refused K.faults writer.old.failed writer.new.failed sink.old sink.new }
{
    if let Data::Bytes(bytes) = item {
        write_strings(writer, sink, bytes);
    }
}

/// Writes the line of MX data.
fn write_exchange<K: Sink>(writer: &mut Writer, sink: &mut K, item: &Data<'_>)
    ensures wrote { Wrote K.gained K.faults writer.old sink.old (mx_in (body_of item.now)) writer.new sink.new }
    ensures fared { Fated K.gained K.refused K.faults writer.old.failed writer.new.failed sink.old sink.new }
{
    if let Data::Mx(preference, name) = item {
        write_mx(writer, sink, *preference, name);
    }
}

impl Part for Addresses {
    ghost text = { ip_part };

    fn write<K: Sink>(writer: &mut Writer, sink: &mut K, message: &Message<'_>, at: usize) {
        if is_wanted(rtype::A, message.rr(at)) {
            write_datum(writer, sink, &message.data(at));
        }
    }
}

impl Part for Texts {
    ghost text = { txt_part };

    fn write<K: Sink>(writer: &mut Writer, sink: &mut K, message: &Message<'_>, at: usize) {
        if is_wanted(rtype::TXT, message.rr(at)) {
            write_text(writer, sink, &message.data(at));
        }
    }
}

impl Part for Exchanges {
    ghost text = { mx_part };

    fn write<K: Sink>(writer: &mut Writer, sink: &mut K, message: &Message<'_>, at: usize) {
        if is_wanted(rtype::MX, message.rr(at)) {
            write_exchange(writer, sink, &message.data(at));
        }
    }
}

/// Writes what each record of a message adds, in order.
pub(crate) fn write_each<P: Part, K: Sink>(writer: &mut Writer, sink: &mut K, message: &Message<'_>)
    requires { AllByRecursion (λ r. model.HasNames r.body) message.now.records }
    ensures wrote { Wrote K.gained K.faults writer.old sink.old (flat_map P.text message.now.records) writer.new sink.new }
    ensures fared { Fated K.gained K.refused K.faults writer.old.failed writer.new.failed sink.old sink.new }
{
    for at in 0..message.count() {
        P::write(writer, sink, message, at);
    }
}

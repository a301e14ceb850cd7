//! The text of a whole packet.
ghost use Rattle.std.specs.Prelude.{◌≡◌, ℕ, ◌≤◌, ◌++◌, ◌==◌, ◌&&◌, length, flat_map, codes, true, Some};
ghost use Rattle.dc_model.specs.Limits.{longest_packet};
ghost use Rattle.dc_model.specs.Message as model;
ghost use Rattle.dc_event.specs.Answers.{well_put};
ghost use Rattle.dc_event.specs.Causes.{Fares};
ghost use Rattle.dc_packet.specs.Data.{body_of};
ghost use Rattle.dc_packet.specs.Rows.{AreRowsOf, named_section};
ghost use Rattle.dc_writer.specs.Fated.{Fated};
ghost use Rattle.dc_writer.specs.Written.{Wrote, PutWhole};
ghost use Rattle.dc_lookup.specs.Text.{text_if, rcode_text, header_text, section_word, host_word, data_byte, data_text, record_text, question_text, packet_text};
ghost use Rattle.dc_show.specs.Lines.{line_of, counts_text};

use crate::names::octal;
use crate::parts::{Part, write_each};
use crate::piece::{write_dot, write_space_dot, write_space_number};
use dc_event::{Put, Sink};
use dc_name::Name;
use dc_packet::{Data, Message, Rr, Section, Table, question_of, u16_at, u32_at};
use dc_types::{class, rtype};
use dc_writer::Writer;

/// Writes a type and a name.
fn write_question<K: Sink>(writer: &mut Writer, sink: &mut K, kind: u16, name: &Name)
    ensures wrote { Wrote K.gained K.faults writer.old sink.old (question_text kind name.now) writer.new sink.new }
    ensures fared { Fated K.gained K.refused K.faults writer.old.failed writer.new.failed sink.old sink.new }
{
    writer.number(sink, kind.into());
    write_space_dot(writer, sink, name);
}

/// Writes a text, where so.
fn write_if<K: Sink>(writer: &mut Writer, sink: &mut K, so: bool, text: &[u8])
    ensures wrote { Wrote K.gained K.faults writer.old sink.old (text_if so text.now) writer.new sink.new }
    ensures fared { Fated K.gained K.refused K.faults writer.old.failed writer.new.failed sink.old sink.new }
{
    if so {
        writer.put(sink, text);
    }
}

/// Writes what a response code says.
fn write_rcode<K: Sink>(writer: &mut Writer, sink: &mut K, code: u16)
    ensures wrote { Wrote K.gained K.faults writer.old sink.old (rcode_text code) writer.new sink.new }
    ensures fared { Fated K.gained K.refused K.faults writer.old.failed writer.new.failed sink.old sink.new }
{
    if code == 0 {
        writer.put(sink, b"noerror");
    } else if code == 3 {
        writer.put(sink, b"nxdomain");
    } else {
        writer.put(sink, b"rcode ");
        writer.number(sink, code.into());
    }
}

/// Writes the counts of the three sections, joined by `+`.
fn write_counts<K: Sink>(writer: &mut Writer, sink: &mut K, packet: &[u8])
    requires { 12 ≤ length packet.now }
    ensures wrote { Wrote K.gained K.faults writer.old sink.old (counts_text packet.now) writer.new sink.new }
    ensures fared { Fated K.gained K.refused K.faults writer.old.failed writer.new.failed sink.old sink.new }
{
    writer.number(sink, u16_at(packet, 6).into());
    writer.put(sink, b"+");
    writer.number(sink, u16_at(packet, 8).into());
    writer.put(sink, b"+");
    writer.number(sink, u16_at(packet, 10).into());
}

/// Writes the packet's length, the counts, the flags and the response code.
fn write_header<K: Sink>(writer: &mut Writer, sink: &mut K, packet: &[u8])
    requires { 12 ≤ length packet.now }
    ensures wrote { Wrote K.gained K.faults writer.old sink.old (header_text packet.now) writer.new sink.new }
    ensures fared { Fated K.gained K.refused K.faults writer.old.failed writer.new.failed sink.old sink.new }
{
    let flags = u16_at(packet, 2);
    writer.number(sink, packet.len() as u64);
    writer.put(sink, b" bytes, 1+");
    write_counts(writer, sink, packet);
    writer.put(sink, b" records");
    write_if(writer, sink, flags / 32768 == 1, b", response");
    write_if(writer, sink, flags / 1024 % 2 == 1, b", authoritative");
    write_if(writer, sink, flags / 512 % 2 == 1, b", truncated");
    writer.put(sink, b", ");
    write_rcode(writer, sink, flags % 16);
    writer.put(sink, b"\n");
}

/// The word of a section.
fn section_word(section: Section) -> &'static [u8]
    ensures { result.now ≡ section_word (named_section section) }
{
    match section {
        Section::Answer => b"answer: ",
        Section::Authority => b"authority: ",
        Section::Additional => b"additional: ",
    }
}

/// The word of a type whose data is a name.
fn host_word(kind: u16) -> &'static [u8]
    ensures { result.now ≡ host_word kind }
{
    if kind == rtype::NS {
        b"NS"
    } else if kind == rtype::CNAME {
        b"CNAME"
    } else {
        b"PTR"
    }
}

/// Writes a byte of data: as it is, or as an octal number.
fn write_byte<K: Sink>(writer: &mut Writer, sink: &mut K, byte: u8)
    ensures wrote { Wrote K.gained K.faults writer.old sink.old (data_byte byte) writer.new sink.new }
    ensures fared { Fated K.gained K.refused K.faults writer.old.failed writer.new.failed sink.old sink.new }
{
    if (33..=126).contains(&byte) && byte != b'\\' {
        writer.put(sink, &[byte]);
    } else {
        writer.put(sink, &octal(byte));
    }
}

/// Writes bytes of data.
fn write_opaque<K: Sink>(writer: &mut Writer, sink: &mut K, bytes: &[u8])
    ensures wrote { Wrote K.gained K.faults writer.old sink.old (flat_map data_byte bytes.now) writer.new sink.new }
    ensures fared { Fated K.gained K.refused K.faults writer.old.failed writer.new.failed sink.old sink.new }
{
    for byte in bytes {
        write_byte(writer, sink, *byte);
    }
}

/// Whether data of this many bytes is an address of class IN.
fn is_address(kind: u16, class: u16, len: usize) -> bool
    ensures so { result ≡ (class == model.class_in && (kind == model.kind_a && len == 4)) }
    ensures four { result ≡ true → len ≡ 4 }
{
    class == class::IN && kind == rtype::A && len == 4
}

/// Writes data that is bytes: an address of class IN, or the type and the bytes.
fn write_bytes<K: Sink>(writer: &mut Writer, sink: &mut K, kind: u16, class: u16, bytes: &[u8])
    ensures wrote { Wrote K.gained K.faults writer.old sink.old (data_text kind class (model.bytes bytes.now)) writer.new sink.new }
    ensures fared { Fated K.gained K.refused K.faults writer.old.failed writer.new.failed sink.old sink.new }
{
    if is_address(kind, class, bytes.len()) {
        writer.put(sink, b"A ");
        writer.address(sink, bytes);
    } else {
        writer.number(sink, kind.into());
        writer.put(sink, b" ");
        write_opaque(writer, sink, bytes);
    }
}

/// Writes data that is two names and five numbers.
fn write_soa<K: Sink>(
    writer: &mut Writer,
    sink: &mut K,
    primary: &Name,
    mailbox: &Name,
    numbers: &[u8],
)
    requires { length numbers.now ≡ 20 }
    ensures wrote { (kind class : ℕ) → Wrote K.gained K.faults writer.old sink.old (data_text kind class (model.soa primary.now mailbox.now numbers.now)) writer.new sink.new }
    ensures fared { Fated K.gained K.refused K.faults writer.old.failed writer.new.failed sink.old sink.new }
{
    writer.put(sink, b"SOA");
    write_space_dot(writer, sink, primary);
    write_space_dot(writer, sink, mailbox);
    write_space_number(writer, sink, u32_at(numbers, 0).into());
    write_space_number(writer, sink, u32_at(numbers, 4).into());
    write_space_number(writer, sink, u32_at(numbers, 8).into());
    write_space_number(writer, sink, u32_at(numbers, 12).into());
    write_space_number(writer, sink, u32_at(numbers, 16).into());
}

/// Writes data by its type and class.
fn write_data<K: Sink>(writer: &mut Writer, sink: &mut K, kind: u16, class: u16, item: &Data<'_>)
    requires { model.HasNames (body_of item.now) }
    ensures wrote { Wrote K.gained K.faults writer.old sink.old (data_text kind class (body_of item.now)) writer.new sink.new }
    ensures fared { Fated K.gained K.refused K.faults writer.old.failed writer.new.failed sink.old sink.new }
{
    match item {
        Data::Bytes(bytes) => write_bytes(writer, sink, kind, class, bytes),
        Data::Host(name) => {
            writer.put(sink, host_word(kind));
            write_space_dot(writer, sink, name);
        }
        Data::Mx(preference, name) => {
            writer.put(sink, b"MX");
            write_space_number(writer, sink, (*preference).into());
            write_space_dot(writer, sink, name);
        }
        Data::Soa(primary, mailbox, numbers) => {
            write_soa(writer, sink, primary, mailbox, numbers);
        }
    }
}

/// Writes the line of a record.
fn write_line<K: Sink>(writer: &mut Writer, sink: &mut K, rr: Rr, owner: &Name, item: &Data<'_>)
    requires { model.HasNames (body_of item.now) }
    ensures wrote { Wrote K.gained K.faults writer.old sink.old (line_of rr owner.now (body_of item.now)) writer.new sink.new }
    ensures fared { Fated K.gained K.refused K.faults writer.old.failed writer.new.failed sink.old sink.new }
{
    writer.put(sink, section_word(rr.section));
    write_dot(writer, sink, owner);
    write_space_number(writer, sink, rr.ttl.into());
    writer.put(sink, b" ");
    write_data(writer, sink, rr.kind, rr.class, item);
    writer.put(sink, b"\n");
}

/// Records, a line each.
struct Lines;

impl Part for Lines {
    ghost text = { record_text };

    fn write<K: Sink>(writer: &mut Writer, sink: &mut K, message: &Message<'_>, at: usize) {
        write_line(
            writer,
            sink,
            message.rr(at),
            &message.owner(at),
            &message.data(at),
        );
    }
}

/// Writes the question that a packet repeats.
fn write_asked<K: Sink>(writer: &mut Writer, sink: &mut K, packet: &[u8], message: &Message<'_>)
    requires packet { length packet.now ≤ longest_packet }
    requires message { model.message_of packet.now ≡ Some message.now }
    ensures wrote { Wrote K.gained K.faults writer.old sink.old (header_text packet.now ++ codes "query: " ++ question_text message.now.question.kind message.now.question.name) writer.new sink.new }
    ensures fared { Fated K.gained K.refused K.faults writer.old.failed writer.new.failed sink.old sink.new }
{
    let Some(question) = question_of(packet) else {
        unreachable!();
    };
    write_header(writer, sink, packet);
    writer.put(sink, b"query: ");
    write_question(writer, sink, question.kind, &question.name);
}

/// Writes what was asked and all that a packet says, a line each: the type and the name, the header, the question, and each record; and
/// answers how many bytes that were. Where the sink fails a front of the text was put.
pub fn show_packet<K: Sink>(
    name: &Name,
    qtype: u16,
    packet: &[u8],
    table: &Table,
    sink: &mut K,
) -> Put
    requires packet { length packet.now ≤ longest_packet }
    requires table { AreRowsOf packet.now table.now }
    ensures whole { (m : model.Message) → model.message_of packet.now ≡ Some m → PutWhole K.gained result sink.old (packet_text name.now qtype packet.now m) sink.new }
    ensures fares { Fares K.gained K.refused K.faults (well_put result) sink.old sink.new }
{
    let message = Message::new(packet, table);
    let mut writer = Writer::new();
    write_question(&mut writer, sink, qtype, name);
    writer.put(sink, b":\n");
    write_asked(&mut writer, sink, packet, &message);
    writer.put(sink, b"\n");
    write_each::<Lines, K>(&mut writer, sink, &message);
    writer.finish(sink)
}

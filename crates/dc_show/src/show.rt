//! The texts of the tools that look at answers alone.
ghost use Rattle.std.specs.Prelude.{◌≡◌, ◌≤◌, length, Some};
ghost use Rattle.dc_model.specs.Message as model;
ghost use Rattle.dc_event.specs.Answers.{well_put};
ghost use Rattle.dc_event.specs.Causes.{Fares};
ghost use Rattle.dc_packet.specs.Rows.{AreRowsOf};
ghost use Rattle.dc_writer.specs.Fated.{Fated};
ghost use Rattle.dc_writer.specs.Written.{Wrote, PutWhole};
ghost use Rattle.dc_lookup.specs.Text as model_text;
ghost use Rattle.dc_lookup.specs.Text.{ip_text, host_text, name_text, txt_text, mx_text};
ghost use Rattle.std.specs.List.{AllByRecursion};
ghost use Rattle.dc_model.specs.Limits.{longest_packet};

use crate::answers::{first_host, has_answers};
use crate::parts::{Addresses, Exchanges, Texts, write_each};
use crate::piece::{write_dot, write_mx};
use dc_event::{Put, Sink};
use dc_name::Name;
use dc_packet::{Message, Table};
use dc_types::rtype;
use dc_writer::Writer;

/// Writes the addresses that a packet answers, each with a space behind it, and a line end; and answers how many bytes that were. Where
/// the sink fails a front of the text was put.
pub fn show_ip<K: Sink>(
    _name: &Name,
    _qtype: u16,
    packet: &[u8],
    table: &Table,
    sink: &mut K,
) -> Put
    requires packet { length packet.now ≤ longest_packet }
    requires table { AreRowsOf packet.now table.now }
    ensures whole { (m : model.Message) → model.message_of packet.now ≡ Some m → PutWhole K.gained result sink.old (ip_text m) sink.new }
    ensures fares { Fares K.gained K.refused K.faults (well_put result) sink.old sink.new }
{
    let message = Message::new(packet, table);
    let mut writer = Writer::new();
    write_each::<Addresses, K>(&mut writer, sink, &message);
    writer.put(sink, b"\n");
    writer.finish(sink)
}

/// The first name that a packet answers. `None` exactly where it answers none.
pub fn host_of(packet: &[u8], table: &Table) -> Option<Name>
    requires packet { length packet.now ≤ longest_packet }
    requires table { AreRowsOf packet.now table.now }
    ensures { (m : model.Message) → model.message_of packet.now ≡ Some m → result ≡ model_text.first_host m }
{
    let message = Message::new(packet, table);
    first_host(&message)
}

/// Writes a name, or nothing.
fn write_host<K: Sink>(writer: &mut Writer, sink: &mut K, host: &Option<Name>)
    ensures wrote { Wrote K.gained K.faults writer.old sink.old (host_text host.now) writer.new sink.new }
    ensures fared { Fated K.gained K.refused K.faults writer.old.failed writer.new.failed sink.old sink.new }
{
    if let Some(name) = host {
        write_dot(writer, sink, name);
    }
}

/// Writes the first name that a packet answers, or nothing, and a line end; and answers how many bytes that were. Where the sink fails a
/// front of the text was put.
pub fn show_name<K: Sink>(
    _name: &Name,
    _qtype: u16,
    packet: &[u8],
    table: &Table,
    sink: &mut K,
) -> Put
    requires packet { length packet.now ≤ longest_packet }
    requires table { AreRowsOf packet.now table.now }
    ensures whole { (m : model.Message) → model.message_of packet.now ≡ Some m → PutWhole K.gained result sink.old (name_text m) sink.new }
    ensures fares { Fares K.gained K.refused K.faults (well_put result) sink.old sink.new }
{
    let message = Message::new(packet, table);
    let host = first_host(&message);
    let mut writer = Writer::new();
    write_host(&mut writer, sink, &host);
    writer.put(sink, b"\n");
    writer.finish(sink)
}

/// Writes the strings of all texts that a packet answers, with `?` for a byte that isn't printable, and a line end; and answers how many
/// bytes that were. Where the sink fails a front of the text was put.
pub fn show_txt<K: Sink>(
    _name: &Name,
    _qtype: u16,
    packet: &[u8],
    table: &Table,
    sink: &mut K,
) -> Put
    requires packet { length packet.now ≤ longest_packet }
    requires table { AreRowsOf packet.now table.now }
    ensures whole { (m : model.Message) → model.message_of packet.now ≡ Some m → PutWhole K.gained result sink.old (txt_text m) sink.new }
    ensures fares { Fares K.gained K.refused K.faults (well_put result) sink.old sink.new }
{
    let message = Message::new(packet, table);
    let mut writer = Writer::new();
    write_each::<Texts, K>(&mut writer, sink, &message);
    writer.put(sink, b"\n");
    writer.finish(sink)
}

/// Writes the lines of the mail exchanges of a message, or that of the name itself where there is none.
fn write_exchanges<K: Sink>(writer: &mut Writer, sink: &mut K, name: &Name, message: &Message<'_>)
    requires { AllByRecursion (λ r. model.HasNames r.body) message.now.records }
    ensures wrote { Wrote K.gained K.faults writer.old sink.old (mx_text name.now message.now) writer.new sink.new }
    ensures fared { Fated K.gained K.refused K.faults writer.old.failed writer.new.failed sink.old sink.new }
{
    if has_answers(message, rtype::MX) {
        write_each::<Exchanges, K>(writer, sink, message);
    } else {
        write_mx(writer, sink, 0, name);
    }
}

/// Writes the mail exchanges that a packet answers, a line each: its preference and its name. Where there is none, the name that was asked
/// for is one, with the preference 0. Answers how many bytes that were. Where the sink fails a front of the text was put.
pub fn show_mx<K: Sink>(name: &Name, _qtype: u16, packet: &[u8], table: &Table, sink: &mut K) -> Put
    requires packet { length packet.now ≤ longest_packet }
    requires table { AreRowsOf packet.now table.now }
    ensures whole { (m : model.Message) → model.message_of packet.now ≡ Some m → PutWhole K.gained result sink.old (mx_text name.now m) sink.new }
    ensures fares { Fares K.gained K.refused K.faults (well_put result) sink.old sink.new }
{
    let message = Message::new(packet, table);
    let mut writer = Writer::new();
    write_exchanges(&mut writer, sink, name, &message);
    writer.finish(sink)
}

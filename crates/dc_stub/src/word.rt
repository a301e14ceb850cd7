//! A word is asked, and the answer shown.
ghost use Rattle.std.specs.Prelude.{◌≡◌, ◌≢◌, ◌+◌, ◌-◌, ◌<◌, ◌≤◌, ◌^◌, ℕ, List, min, length, false, true, Some, None, IfOk};
ghost use Rattle.dc_model.specs.Limits.{longest_packet};
ghost use Rattle.dc_model.specs.Message.{Message as Said, message_of};
ghost use Rattle.dc_model.specs.Places.{all_empty};
ghost use Rattle.dc_packet.specs.Rows.{AreRowsOf};
ghost use Rattle.dc_event.specs.Answers.{well_put};
ghost use Rattle.dc_event.specs.Causes.{counted, Fares};
ghost use Rattle.dc_lookup.specs.Words.{Tool, shown_by};
ghost use Rattle.dc_lookup.specs.Asking.{is_over};
ghost use Rattle.dc_model.specs.Draws.{draws_of};
ghost use Rattle.dc_model.specs.Event.{Event};
ghost use Rattle.dc_stub.specs.Faults.{output_well};
ghost use Rattle.dc_stub.specs.Word.{IsShown, Worded, Tells, TellsBy, own_text};

use crate::engine::{StubEngine, ask};
use crate::status::ToolStatus;
use dc_draws::Draws;
use dc_event::{Inbox, Put, Sink, World};
use dc_name::Name;
use dc_packet::Table;
use dc_serve::Served;
use std::alloc::{AllocError, Global};

/// How a tool shows a packet.
pub trait Shows {
    /// Which tool it is.
    ghost tool: { Tool };

    /// Writes the text of a packet that answers a question.
    fn show<K: Sink>(name: &Name, kind: u16, packet: &[u8], table: &Table, sink: &mut K) -> Put
        requires packet { length packet.now ≤ longest_packet }
        requires table { AreRowsOf packet.now table.now }
        ensures whole { (m : Said) → message_of packet.now ≡ Some m → IsShown K.gained result sink.old (shown_by tool name.now kind packet.now m) sink.new }
        ensures fares { Fares K.gained K.refused K.faults (well_put result) sink.old sink.new };

    /// Writes the text of an address that needs no asking.
    fn say<K: Sink>(addr: [u8; 4], sink: &mut K) -> Put
        ensures whole { IsShown K.gained result sink.old (own_text addr) sink.new }
        ensures fares { Fares K.gained K.refused K.faults (well_put result) sink.old sink.new };
}

/// What the words of a tool share.
#[derive(Drop)]
pub struct Session {
    pub draws: Draws,
    /// How many events may still be handled.
    pub left: u64,
    pub inbox: Inbox,
    pub table: Table,
}

impl Session {
    /// It takes all its memory.
    pub fn new(alloc: Global, seed: [u8; 32], left: u64) -> Result<Session, AllocError>
        ensures draws { IfOk result (λ s. s.draws ≡ record { seed = seed; given = 0 }) }
        ensures left { IfOk result (λ s. s.left ≡ left) }
    {
        Ok(Session {
            draws: Draws::from_seed(seed),
            left,
            inbox: Inbox::new(alloc)?,
            table: Table::new(alloc)?,
        })
    }
}

/// Shows the packet that was accepted.
fn tell<T: Shows, K: Sink>(
    name: &Name,
    kind: u16,
    packet: &[u8],
    table: &mut Table,
    sink: &mut K,
) -> ToolStatus
    requires packet { length packet.now ≤ longest_packet }
    ensures told { (text : List ℕ) × K.gained sink.old text sink.new × Tells T.tool name.now kind packet.now text result }
    ensures sink_fares { Fares K.gained K.refused K.faults (output_well result) sink.old sink.new }
{
    match table.read(packet) {
        Err(_) => ToolStatus::Malformed,
        Ok(()) => match T::show(name, kind, packet, table, sink) {
            Put::Taken(_) => ToolStatus::Done,
            Put::Failed => ToolStatus::WriteFault,
        },
    }
}

/// What is told where the question has its answer, or will have none.
fn conclude<T: Shows, K: Sink>(
    stub: &StubEngine,
    name: &Name,
    kind: u16,
    table: &mut Table,
    sink: &mut K,
) -> ToolStatus
    requires over { is_over stub.now.asking ≡ true }
    ensures told { (text : List ℕ) × K.gained sink.old text sink.new × TellsBy T.tool name.now kind stub.now.asking.stands text result }
    ensures sink_fares { Fares K.gained K.refused K.faults (output_well result) sink.old sink.new }
{
    match stub.answer() {
        Some(packet) => tell::<T, K>(name, kind, packet, table, sink),
        None => {
            if stub.port_refused() {
                ToolStatus::NoPort
            } else {
                ToolStatus::NoAnswer
            }
        }
    }
}

/// Asks for a word, and shows the answer.
pub fn ask_word<T: Shows, K: Sink, W: World>(
    alloc: Global,
    servers: &[[u8; 4]; 16],
    name: &Name,
    kind: u16,
    session: &mut Session,
    sink: &mut K,
    world: &mut W,
) -> ToolStatus
    requires place { all_empty servers.now ≡ false }
    requires left { session.old.draws.given + session.old.left ≤ 2 ^ 60 }
    ensures run { (events : List Event) × (
        Worded W.history W.used_up W.broken K.gained world.old world.new sink.old sink.new
        T.tool servers.now name.now kind (draws_of session.old.draws.seed) session.old.draws.given session.old.left result events
        × ((session.new.draws ≡ record { seed = session.old.draws.seed; given = session.old.draws.given + length events })
        × (session.new.left + length events ≡ session.old.left))) }
    ensures sink_fares { Fares K.gained K.refused K.faults (output_well result) sink.old sink.new }
    ensures world_fault { result ≡ ToolStatus.WorldFault → W.faults world.new ≡ counted (W.faults world.old) }
    ensures world_stays { result ≢ ToolStatus.WorldFault → W.faults world.new ≡ W.faults world.old }
{
    let Ok(mut stub) = StubEngine::new(alloc, servers, name, kind) else {
        return ToolStatus::NoMemory;
    };
    let served = ask(
        &mut stub,
        world,
        &mut session.draws,
        &mut session.inbox,
        session.left,
    );
    session.left -= stub.handled();
    match served {
        Served::Finished => conclude::<T, K>(&stub, name, kind, &mut session.table, sink),
        Served::Spent => ToolStatus::Spent,
        Served::Ended => ToolStatus::Ended,
        Served::Failed => ToolStatus::WorldFault,
        Served::Bad { line } => ToolStatus::BadScript(line),
    }
}

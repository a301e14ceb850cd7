//! What a line of the queue hears.
ghost use Rattle.std.specs.Prelude.{◌≡◌, ◌+◌, ◌<◌, ◌≤◌, ◌^◌, ◌∷◌, [], length, Some, None, IsSome, false};
ghost use Rattle.dc_model.specs.Limits.{longest_packet};
ghost use Rattle.dc_model.specs.Name.{reverse_name};
ghost use Rattle.dc_model.specs.Message.{message_of};
ghost use Rattle.dc_model.specs.Places.{all_empty};
ghost use Rattle.dc_model.specs.Transmission.{opening_of};
ghost use Rattle.dc_transmit.specs.Attempts.{occasion};
ghost use Rattle.dc_transmit.specs.Standing.{followed};
ghost use Rattle.dc_lookup.specs.Filter.{asked, gets_on};
ghost use Rattle.dc_filter.specs.Lines.{line_step, first_attempt, host_answered};
ghost use Rattle.dc_filter.specs.View.{slot_of, IsFit, IsIdle};

use crate::slot::{Slot, Stage};
use dc_draws::shuffle;
use dc_engine::{Effects, Inbox};
use dc_name::Name;
use dc_packet::Table;
use dc_show::host_of;
use dc_transmit::Progress;
use dc_types::rtype;

/// The host that a packet answers, by way of a table. `None` also where the packet is no message.
fn host_in(packet: &[u8], table: &mut Table) -> Option<Name>
    requires { length packet.now ≤ longest_packet }
    ensures { result ≡ host_answered (message_of packet.now) }
{
    match table.read(packet) {
        Err(_) => None,
        Ok(()) => host_of(packet, table),
    }
}

impl Slot {
    /// The first attempt.
    fn begin<O: Effects>(
        &mut self,
        addr: [u8; 4],
        inbox: &Inbox,
        draws: &[u32; 17],
        servers: &[[u8; 4]; 16],
        link: &mut u64,
        out: &mut O,
    )
        requires idle { IsIdle self.old }
        requires place { all_empty servers.now ≡ false }
        requires links { link.old < 2 ^ 60 }
        ensures acts { O.acted out.old (opening_of (first_attempt (reverse_name addr) servers.now link.old inbox.now draws.now) ∷ []) out.new }
        ensures next { slot_of self.new ≡ record { line = self.old.line.items; at = asked (first_attempt (reverse_name addr) servers.now link.old inbox.now draws.now) } }
        ensures links { link.new ≡ link.old + 1 }
        ensures fit { IsFit self.new }
    {
        let mut places = *servers;
        shuffle(&mut places, draws);
        let name = Name::reverse_of(addr);
        let now = inbox.event().now;
        self.sender
            .start(&places, &name, rtype::PTR, true, draws, now, link, out);
        self.stage = Stage::Asked;
    }

    /// An event while the host is asked for.
    fn follow<O: Effects>(
        &mut self,
        inbox: &Inbox,
        draws: &[u32; 17],
        table: &mut Table,
        link: &mut u64,
        out: &mut O,
    )
        requires stage { self.old.stage ≡ Stage.Asked }
        requires asking { IsSome self.old.sender.attempt }
        requires links { link.old < 2 ^ 60 }
        ensures acts { O.acted out.old (followed self.old.sender.attempt inbox.now (occasion inbox.now.now draws.now link.old)).actions out.new }
        ensures next { slot_of self.new ≡ record {
          line = self.old.line.items;
          at = gets_on (followed self.old.sender.attempt inbox.now (occasion inbox.now.now draws.now link.old)).progress self.old.line.items;
        } }
        ensures links { link.new ≡ (followed self.old.sender.attempt inbox.now (occasion inbox.now.now draws.now link.old)).links }
        ensures fit { IsFit self.new }
    {
        match self.sender.on_event(inbox, draws, link, out) {
            Progress::Waiting => {}
            Progress::Packet => {
                let host = host_in(self.sender.packet(), table);
                self.end_with(&host);
            }
            Progress::Failed | Progress::NoPort => self.end_with(&None),
        }
    }

    /// What follows an event for the line.
    pub(crate) fn hear<O: Effects>(
        &mut self,
        inbox: &Inbox,
        draws: &[u32; 17],
        servers: &[[u8; 4]; 16],
        table: &mut Table,
        link: &mut u64,
        out: &mut O,
    )
        requires fit { IsFit self.old }
        requires place { all_empty servers.now ≡ false }
        requires links { link.old < 2 ^ 60 }
        ensures acts { O.acted out.old (line_step (slot_of self.old).at self.old.line.items servers.now link.old inbox.now draws.now).actions out.new }
        ensures next { slot_of self.new ≡ record {
          line = self.old.line.items;
          at = (line_step (slot_of self.old).at self.old.line.items servers.now link.old inbox.now draws.now).at;
        } }
        ensures links { link.new ≡ (line_step (slot_of self.old).at self.old.line.items servers.now link.old inbox.now draws.now).links }
        ensures fit { IsFit self.new }
    {
        match self.stage {
            Stage::Fresh(addr) => self.begin(addr, inbox, draws, servers, link, out),
            Stage::Asked => self.follow(inbox, draws, table, link, out),
            Stage::Done => {}
        }
    }
}

//! The step of a core at an event.
ghost use Rattle.std.specs.Prelude.{◌≡◌, ◌+◌, ◌<◌, ◌≤◌, ◌^◌, length};
ghost use Rattle.dc_model.specs.Limits.{most_active, most_works};
ghost use Rattle.dc_machine.specs.Kept.{IsSound};
ghost use Rattle.dc_machine.specs.Machine.{step};
ghost use Rattle.dc_clients.specs.View.{machine_of, rules_of, works, AreBelow, Took};

use crate::clients::Clients;
use dc_engine::{Effects, Inbox, Kind};
use dc_store::Store;

impl<S: Store> Clients<S> {
    /// Does what follows an event.
    pub fn step<O: Effects>(&mut self, inbox: &Inbox, draws: &[u32; 17], out: &mut O)
        requires sound { IsSound (machine_of S.cache self.old) }
        requires works { works self.old ≡ most_works }
        requires few { length self.old.queries.queries ≤ most_active }
        requires links { self.old.desk.link < 2 ^ 60 }
        requires counts { AreBelow (2 ^ 61) self.old.desk.counts }
        ensures step { Took O.acted S.cache out.old self.old out.new self.new
            (step (rules_of self.old) (machine_of S.cache self.old) inbox.now draws.now) }
        ensures works { works self.new ≡ most_works }
        ensures accepted { self.new.desk.counts.accepted ≤ self.old.desk.counts.accepted + 1 }
    {
        match inbox.event().kind {
            Kind::Tick => self.tick(inbox, draws, out),
            Kind::Request => self.hear_request(inbox, draws, out),
            Kind::Datagram | Kind::LinkUp | Kind::LinkBytes | Kind::LinkDown | Kind::BindRefused =>
                self.hear_link(inbox, draws, out),
            Kind::ConnUp => self.hear_opening(inbox, draws, out),
            Kind::ConnBytes => self.hear_bytes(inbox, draws, out),
            Kind::ConnDown => self.hear_closing(inbox, out),
        }
    }
}

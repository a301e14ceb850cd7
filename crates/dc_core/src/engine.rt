//! The core as an engine.
ghost use Rattle.std.specs.Prelude.{◌≡◌, ◌+◌, IfOk, refl};
ghost use Rattle.dc_machine.specs.Run.{opening};
ghost use Rattle.dc_machine.specs.Machine.{udp_queries};
ghost use Rattle.std.specs.Prelude.{length};
ghost use Rattle.dc_rules.specs.Settings as settings;
ghost use Rattle.dc_core.specs.Running.{Running, core_machine};

use dc_clients::Clients;
use dc_desk::Counts;
use dc_engine::{Effects, Engine, Inbox};
use dc_lines::{Line, line_starting};
use dc_rules::Config;
use dc_store::Store;
use std::alloc::{AllocError, Global};
use std::marker::Model;

/// The resolver over a cache, an engine that knows no socket and no file. It takes all its memory in `new`.
///
/// Contracts see its rules, the machine that it stands for, and how many events it has handled.
#[derive(Drop)]
pub struct Core<S: Store> {
    clients: Clients<S>,
    handled: u64,
}

impl<S: Store> Model for Core<S> {
    ghost use Rattle.dc_clients.specs.View.{machine_of, rules_of, works};
    ghost use Rattle.dc_core.specs.Running.{Running, IsKept};

    ghost Value = { Running };

    ghost view = { λ c. record { rules = rules_of c.clients; machine = machine_of S.cache c.clients; handled = c.handled } };

    ghost invariant = { λ c. IsKept (machine_of S.cache c.clients) (works c.clients) c.handled };
}

impl<S: Store + Drop> Core<S> {
    /// A core with this configuration and this cache, which has handled nothing.
    pub fn new(alloc: Global, config: Config, store: S) -> Result<Core<S>, AllocError>
        ensures { IfOk result (λ c. c ≡ record { rules = settings.rules_of config; machine = opening (S.cache store); handled = 0 }) }
    {
        Ok(Core {
            clients: Clients::new(alloc, config, store)?,
            handled: 0,
        })
    }
}

impl<S: Store> Core<S> {
    /// How many queries were accepted, replied to and dropped, and how many are active: in all, and over UDP; and how many
    /// connections are open.
    pub fn counts(&self) -> Counts
        ensures accepted { result.accepted ≡ self.now.machine.accepted }
        ensures sent { result.sent ≡ self.now.machine.sent }
        ensures dropped { result.dropped ≡ self.now.machine.dropped }
        ensures active { result.active ≡ length self.now.machine.queries }
        ensures udp { result.udp ≡ length (udp_queries self.now.machine.queries) }
        ensures tcp { result.tcp ≡ length self.now.machine.connections }
        ensures balance { result.accepted ≡ result.sent + result.dropped + result.active }
    {
        self.clients.counts()
    }

    /// The cache.
    pub fn store(&self) -> &S
        ensures { S.cache result.now ≡ self.now.machine.cache }
    {
        self.clients.store()
    }
}

impl<S: Store> Engine for Core<S> {
    ghost State = { Running };

    ghost machine = { core_machine };

    ghost state = { λ c. c };

    fn launch<O: Effects>(&mut self, out: &mut O) {
        let _ = &self.handled;
        let mut line = Line::new();
        line_starting(&mut line);
        out.line(line.text());
    }

    fn step<O: Effects>(&mut self, inbox: &Inbox, draws: &[u32; 17], out: &mut O) {
        self.handled += 1;
        self.clients.step(inbox, draws, out);
    }

    fn wake(&self) -> Option<u64> {
        self.clients.wake()
    }

    fn finished(&self) -> bool {
        false
    }

    ghost counts = { λ s e words. refl };
}

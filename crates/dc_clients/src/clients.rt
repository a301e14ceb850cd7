//! The clients of a core: what they share, the active queries, and the open connections.
ghost use Rattle.std.specs.Prelude.{◌≡◌, ◌+◌, ◌^◌, ◌<◌, length, IfOk};
ghost use Rattle.dc_model.specs.Limits.{most_works};
ghost use Rattle.dc_model.specs.Event.{Action};
ghost use Rattle.dc_machine.specs.Machine.{udp_queries, is_udp, one_if};
ghost use Rattle.dc_machine.specs.Run.{opening};
ghost use Rattle.dc_rules.specs.Settings as settings;
ghost use Rattle.dc_active.specs.View.{client_of};
ghost use Rattle.dc_clients.specs.View.{machine_of, rules_of, works};

use dc_active::{Actives, Client};
use dc_connections::Connections;
use dc_desk::{Counts, Desk};
use dc_packet::Table;
use dc_reply::Reply;
use dc_rules::{Config, Permit};
use dc_store::Store;
use std::alloc::{AllocError, Global};

/// The clients of a core. It takes all its memory in `new`.
#[derive(Drop)]
pub struct Clients<S: Store> {
    /// What the queries share.
    pub(crate) desk: Desk<S>,
    /// Who may ask.
    pub(crate) permit: Permit,
    /// The active queries.
    pub(crate) queries: Actives,
    /// The clients' open connections.
    pub(crate) connections: Connections,
}

/// No query was accepted, and no connection is open.
fn no_counts() -> Counts
    ensures { result ≡ record { accepted = 0; sent = 0; dropped = 0; active = 0; udp = 0; tcp = 0 } }
{
    Counts {
        accepted: 0,
        sent: 0,
        dropped: 0,
        active: 0,
        udp: 0,
        tcp: 0,
    }
}

impl<S: Store + Drop> Clients<S> {
    /// No client yet, with these rules and this cache.
    pub fn new(alloc: Global, config: Config, store: S) -> Result<Clients<S>, AllocError>
        ensures machine { IfOk result (λ c. machine_of S.cache c ≡ opening (S.cache store)) }
        ensures rules { IfOk result (λ c. rules_of c ≡ settings.rules_of config) }
        ensures works { IfOk result (λ c. works c ≡ most_works) }
    {
        Ok(Clients {
            desk: Desk {
                zones: config.zones,
                forward: config.forward,
                store,
                table: Table::new(alloc)?,
                reply: Reply::new(alloc)?,
                link: 0,
                counts: no_counts(),
            },
            permit: config.permit,
            queries: Actives::new(alloc)?,
            connections: Connections::new(alloc)?,
        })
    }
}

impl<S: Store> Clients<S> {
    /// How many queries were accepted, replied to and dropped, and how many are active: in all, and over UDP; and how many
    /// connections are open.
    pub fn counts(&self) -> Counts
        ensures { result ≡ record self.now.desk.counts {
          active = length self.now.queries.queries;
          udp = length (udp_queries self.now.queries.queries);
          tcp = length self.now.connections;
        } }
    {
        Counts {
            active: self.queries.len() as u64,
            udp: self.queries.udp() as u64,
            tcp: self.connections.len() as u64,
            ..self.desk.counts
        }
    }

    /// The cache.
    pub fn store(&self) -> &S
        ensures { result.now ≡ self.now.desk.store }
    {
        &self.desk.store
    }

    /// Counts for a turn of a query of this client, which was taken out.
    pub(crate) fn count(&mut self, client: Client)
        ensures { self.new ≡ record self.old {
          desk = record self.old.desk {
            counts = record self.old.desk.counts {
              udp = length (udp_queries self.old.queries.queries) + one_if (is_udp (client_of client));
              tcp = length self.old.connections;
            };
          };
        } }
    {
        self.desk.counts.udp = self.queries.udp() as u64 + u64::from(client.is_udp());
        self.desk.counts.tcp = self.connections.len() as u64;
    }
}

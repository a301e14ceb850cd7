//! Actions go out with outer numbers of links.
ghost use Rattle.std.specs.Prelude.{◌≡◌, ◌∷◌, [], refl};
ghost use Rattle.std.proofs.Common.{◌∙◌};
ghost use Rattle.dc_split.specs.Routing as split;
ghost use Rattle.dc_shard.specs.Outward.{Passed, Passed-none, Passed-both};

use dc_engine::Effects;

/// The number by which a link of this core goes out.
pub(crate) fn outer_link(cores: u64, core: u64, link: u64) -> u64
    ensures { result ≡ split.outer_link cores core link }
{
    link.saturating_sub(1)
        .saturating_mul(cores)
        .saturating_add(core)
        .saturating_add(1)
}

/// Hands the actions of a core on, with outer numbers of links.
#[derive(Drop)]
pub(crate) struct Outward<'a, O: Effects> {
    pub out: &'a mut O,
    pub cores: u64,
    pub core: u64,
}

impl<'a, O: Effects> Effects for Outward<'a, O> {
    ghost acted = { Passed O.acted };

    #[tactic(auto, unfolding(dc_split::specs::Routing::outer))]
    fn reply(&mut self, addr: [u8; 4], port: u16, bytes: &[u8]) {
        self.out.reply(addr, port, bytes);
    }

    #[tactic(auto, unfolding(dc_split::specs::Routing::outer))]
    fn conn_reply(&mut self, conn: u64, bytes: &[u8]) {
        self.out.conn_reply(conn, bytes);
    }

    #[tactic(auto, unfolding(dc_split::specs::Routing::outer))]
    fn conn_close(&mut self, conn: u64) {
        self.out.conn_close(conn);
    }

    #[tactic(auto, unfolding(dc_split::specs::Routing::outer))]
    fn udp(&mut self, link: u64, local_port: u16, server: [u8; 4], query: &[u8]) {
        let link = outer_link(self.cores, self.core, link);
        self.out.udp(link, local_port, server, query);
    }

    #[tactic(auto, unfolding(dc_split::specs::Routing::outer))]
    fn tcp(&mut self, link: u64, local_port: u16, server: [u8; 4]) {
        let link = outer_link(self.cores, self.core, link);
        self.out.tcp(link, local_port, server);
    }

    #[tactic(auto, unfolding(dc_split::specs::Routing::outer))]
    fn link_write(&mut self, link: u64, bytes: &[u8]) {
        let link = outer_link(self.cores, self.core, link);
        self.out.link_write(link, bytes);
    }

    #[tactic(auto, unfolding(dc_split::specs::Routing::outer))]
    fn link_close(&mut self, link: u64) {
        let link = outer_link(self.cores, self.core, link);
        self.out.link_close(link);
    }

    #[tactic(auto, unfolding(dc_split::specs::Routing::outer))]
    fn line(&mut self, text: &[u8]) {
        self.out.line(text);
    }

    ghost acted_none = { Passed-none O.acted O.acted_none };

    ghost acted_both = { Passed-both O.acted O.acted_both };
}

//! A world that is lent.
ghost use Rattle.std.specs.Prelude.{◌≡◌, refl};
ghost use Rattle.std.proofs.Common.{◌∙◌};

use dc_event::{Effects, Heard, Inbox, World, WorldFailed};

/// A world that is lent: all is done by the world itself, and the loan stays the same.
#[derive(Drop)]
pub struct LentWorld<'a, W: World> {
    world: &'a mut W,
}

impl<'a, W: World> LentWorld<'a, W> {
    /// A loan of a world.
    pub fn new(world: &'a mut W) -> LentWorld<'a, W>
        ensures { result.world ≡ world.entry }
    {
        LentWorld { world }
    }
}

impl<W: World> Effects for LentWorld<'_, W> {
    ghost acted = { λ a xs b. (b.world.ghost_name ≡ a.world.ghost_name) × W.acted a.world.now xs b.world.now };

    fn reply(&mut self, addr: [u8; 4], port: u16, bytes: &[u8]) {
        self.world.reply(addr, port, bytes);
    }

    fn conn_reply(&mut self, conn: u64, bytes: &[u8]) {
        self.world.conn_reply(conn, bytes);
    }

    fn conn_close(&mut self, conn: u64) {
        self.world.conn_close(conn);
    }

    fn udp(&mut self, link: u64, local_port: u16, server: [u8; 4], query: &[u8]) {
        self.world.udp(link, local_port, server, query);
    }

    fn tcp(&mut self, link: u64, local_port: u16, server: [u8; 4]) {
        self.world.tcp(link, local_port, server);
    }

    fn link_write(&mut self, link: u64, bytes: &[u8]) {
        self.world.link_write(link, bytes);
    }

    fn link_close(&mut self, link: u64) {
        self.world.link_close(link);
    }

    fn line(&mut self, text: &[u8]) {
        self.world.line(text);
    }

    ghost acted_none = { λ a. (refl, W.acted_none a.world.now) };

    ghost acted_both = { λ a b c xs ys p q. (q.0 ∙ p.0, W.acted_both a.world.now b.world.now c.world.now xs ys p.1 q.1) };
}

impl<W: World> World for LentWorld<'_, W> {
    ghost history = { λ a h b. (b.world.ghost_name ≡ a.world.ghost_name) × W.history a.world.now h b.world.now };

    ghost faults = { λ w. W.faults w.world.now };

    ghost used_up = { λ w. W.used_up w.world.now };

    ghost broken = { λ w number. W.broken w.world.now number };

    fn listen(&mut self, addr: [u8; 4], send_from: [u8; 4]) -> Result<(), WorldFailed> {
        self.world.listen(addr, send_from)
    }

    fn next(&mut self, wake: Option<u64>, inbox: &mut Inbox) -> Heard {
        self.world.next(wake, inbox)
    }

    fn faults(&self) -> u64 {
        self.world.faults()
    }

    ghost history_none = { λ a. (refl, W.history_none a.world.now) };

    ghost history_both = { λ a b c g h p q. (q.0 ∙ p.0, W.history_both a.world.now b.world.now c.world.now g h p.1 q.1) };

    ghost acted_history = { λ a b xs p. (p.0, W.acted_history a.world.now b.world.now xs p.1) };

    ghost acted_faults = { λ a b xs p. W.acted_faults a.world.now b.world.now xs p.1 };
}

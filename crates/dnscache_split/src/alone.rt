//! A world that gives one event at a time.
ghost use Rattle.std.specs.Prelude.{◌≡◌};

use dc_event::{BatchWorld, Effects, Heard, Inbox, World, WorldFailed};

/// A world over another one, of which no further event is ever had at once.
#[derive(Drop)]
pub struct Alone<W: BatchWorld> {
    /// The other one.
    pub world: W,
}

impl<W: BatchWorld> Effects for Alone<W> {
    ghost acted = { λ a actions b. W.acted a.world actions b.world };

    fn reply(&mut self, addr: [u8; 4], port: u16, bytes: &[u8]) {
        self.world.reply(addr, port, bytes);
    }

    fn conn_reply(&mut self, conn: u64, bytes: &[u8]) {
        self.world.conn_reply(conn, bytes);
    }

    fn conn_close(&mut self, conn: u64) {
        self.world.conn_close(conn);
    }

    fn udp(&mut self, link: u64, local_port: u16, server: [u8; 4], query: &[u8]) {
        self.world.udp(link, local_port, server, query);
    }

    fn tcp(&mut self, link: u64, local_port: u16, server: [u8; 4]) {
        self.world.tcp(link, local_port, server);
    }

    fn link_write(&mut self, link: u64, bytes: &[u8]) {
        self.world.link_write(link, bytes);
    }

    fn link_close(&mut self, link: u64) {
        self.world.link_close(link);
    }

    fn line(&mut self, text: &[u8]) {
        self.world.line(text);
    }

    ghost acted_none = { λ a. W.acted_none a.world };

    ghost acted_both = { λ a b c xs ys p q. W.acted_both a.world b.world c.world xs ys p q };
}

impl<W: BatchWorld> World for Alone<W> {
    ghost history = { λ a passed b. W.history a.world passed b.world };

    ghost faults = { λ a. W.faults a.world };

    ghost used_up = { λ a. W.used_up a.world };

    ghost broken = { λ a number. W.broken a.world number };

    fn listen(&mut self, addr: [u8; 4], send_from: [u8; 4]) -> Result<(), WorldFailed> {
        self.world.listen(addr, send_from)
    }

    fn next(&mut self, wake: Option<u64>, inbox: &mut Inbox) -> Heard {
        self.world.next(wake, inbox)
    }

    fn faults(&self) -> u64 {
        self.world.faults()
    }

    ghost history_none = { λ a. W.history_none a.world };

    ghost history_both = { λ a b c xs ys p q. W.history_both a.world b.world c.world xs ys p q };

    ghost acted_history = { λ a b xs p. W.acted_history a.world b.world xs p };

    ghost acted_faults = { λ a b xs p. W.acted_faults a.world b.world xs p };
}

impl<W: BatchWorld> BatchWorld for Alone<W> {
    fn more(&mut self, _inbox: &mut Inbox) -> bool {
        false
    }
}

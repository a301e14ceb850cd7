//! What an engine may do.
ghost use Rattle.std.specs.Prelude.{◌≡◌, ℕ, List, [], ◌∷◌, ◌++◌};
ghost use Rattle.dc_model.specs.Event.{Action, reply, conn_reply, conn_close, udp, tcp, link_write, link_close, line};

/// What an engine may do to the outside. Each call does its one action.
pub trait Effects {
    /// Between these two states these actions were done.
    ghost acted: { Self → List Action → Self → Type 0 };

    /// Sends a datagram to a client.
    fn reply(&mut self, addr: [u8; 4], port: u16, bytes: &[u8])
        ensures { acted self.old (Action.reply addr port bytes.now ∷ []) self.new };

    /// Sends bytes to a client's connection: two length bytes and the message.
    fn conn_reply(&mut self, conn: u64, bytes: &[u8])
        ensures { acted self.old (Action.conn_reply conn bytes.now ∷ []) self.new };

    /// Closes a client's connection.
    fn conn_close(&mut self, conn: u64)
        ensures { acted self.old (Action.conn_close conn ∷ []) self.new };

    /// Makes a link and sends a datagram to a server on it, from this local port.
    fn udp(&mut self, link: u64, local_port: u16, server: [u8; 4], query: &[u8])
        ensures { acted self.old (Action.udp link local_port server query.now ∷ []) self.new };

    /// Makes a link and connects it to a server, from this local port.
    fn tcp(&mut self, link: u64, local_port: u16, server: [u8; 4])
        ensures { acted self.old (Action.tcp link local_port server ∷ []) self.new };

    /// Sends bytes to a server's connection: two length bytes and the message.
    fn link_write(&mut self, link: u64, bytes: &[u8])
        ensures { acted self.old (Action.link_write link bytes.now ∷ []) self.new };

    /// Closes a link. Outside it does nothing where the link is gone already.
    fn link_close(&mut self, link: u64)
        ensures { acted self.old (Action.link_close link ∷ []) self.new };

    /// Writes a line of the log. The text has no line end.
    fn line(&mut self, text: &[u8])
        ensures { acted self.old (Action.line text.now ∷ []) self.new };

    ghost acted_none: { (a : Self) → acted a [] a };

    ghost acted_both: { (a b c : Self) (xs ys : List Action) → acted a xs b → acted b ys c → acted a (xs ++ ys) c };

    /// One action, and then others.
    ghost acted_then: { (a b c : Self) (x : Action) (ys : List Action) → acted a (x ∷ []) b → acted b ys c → acted a (x ∷ ys) c } = { λ a b c x ys p q. acted_both a b c (x ∷ []) ys p q };
}

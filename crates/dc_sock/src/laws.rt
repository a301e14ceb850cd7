//! What holds over whole runs, over any system.
ghost use Rattle.std.specs.Prelude.{◌≡◌, ℕ, List, true};
ghost use Rattle.dc_sock.specs.Promises.{GoesOnListening, SendsReplies};
ghost use Rattle.dc_event.specs.History.{Exchange};
ghost use Rattle.dc_sock.specs.Service.{RunsService};
ghost use Rattle.dc_sock.specs.Streams.{IsNumbered};
ghost use Rattle.dc_sock.specs.Turns.{IsInOrder, LooksInTurn};
ghost use Rattle.dc_sock.specs.World.{Shown, IsFresh, Explained};

use dc_system::System;

/// While clients are heard, what was sent to clients is exactly the replies: each once, in order, whole, to the address and port of its
/// action, and nothing else.
pub fn replies_are_sent<S: System>()
    ensures { (a b : Shown S) (xs : List Exchange) → a.edge.hears ≡ true → GoesOnListening xs → Explained S.called a xs b → SendsReplies S.called a xs b }
{}

/// For every run there are the calls that were made for each exchange, in order, and what an operator sees of them is exactly the run. Each
/// request is the bytes and the sender of one datagram on the clients' socket, and each datagram of a server those of one on a link's; no other
/// datagram is taken. An event that had come already was handed out without a wait; where one more was asked for and none had come, nothing was
/// waited for, sent, taken or printed. A connection that comes is one that was accepted, with its peer, and no other is kept; bytes of a stream are those of one
/// part that was read. Each reply is one datagram with exactly its bytes to its client. Each query is one datagram with exactly its bytes, from
/// the address that is sent from and its local port, to port 53 of its server, unless that is refused or all links stand; no other datagram is
/// sent. What was printed, with what is still gathered, is the lines, whole and in order, where each print went well. What the stream of a
/// connection that came took until it was closed is a front of its replies, in order. While it isn't closed it stands, and what its stream
/// took, with what waits for it, is exactly its replies, in order, unless it has failed: by a write that went wrong, or where its replies have
/// more than 65537 bytes. That is said of each connection that comes under a number below the last, where the numbers at the places are in
/// order at first: `places_are_numbered`.
pub fn service_is_seen<S: System>()
    ensures { (a b : Shown S) (xs : List Exchange) → Explained S.called a xs b → RunsService S.called a xs b }
{}

/// The numbers at the places are in order in a world at first, and behind each run where they were before.
pub fn places_are_numbered<S: System>()
    ensures fresh { (system : S) (port : ℕ) (w : Shown S) → IsFresh system port w → IsNumbered w.edge.seats w.edge.next_conn }
    ensures kept { (a b : Shown S) (xs : List Exchange) → IsNumbered a.edge.seats a.edge.next_conn → Explained S.called a xs b → IsNumbered b.edge.seats b.edge.next_conn }
{}

/// For every run there are the calls that were made, and in them what is ready is looked at in turn. Between two waits at most 64 sources are
/// looked at, not counting the listener, which is tried again out of turn. While clients are heard, their socket for datagrams and the listener
/// are looked at before more than four waits come, whenever the system told that they are ready; that is where what is ready is in order at
/// first, and each socket that is told to be ready or is made has a number below 250. What is ready stays in order then. The numbers at the
/// places are in order at first: `places_are_numbered`.
pub fn sources_are_looked_at_in_turn<S: System>()
    ensures { (a b : Shown S) (xs : List Exchange) → IsNumbered a.edge.seats a.edge.next_conn → Explained S.called a xs b → LooksInTurn S.called a xs b }
{}

/// In a world at first what is ready is in order, as nothing is.
pub fn nothing_is_ready_at_first<S: System>()
    ensures { (system : S) (port : ℕ) (w : Shown S) → IsFresh system port w → IsInOrder w.edge }
{}

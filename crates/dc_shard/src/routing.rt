//! Which core an event goes to, and how links are numbered inside a core.
ghost use Rattle.std.specs.Prelude.{◌≡◌, ◌≢◌, ◌<◌, ◌≤◌, ℕ, true, false, length};
ghost use Rattle.dc_model.specs.Event.{tick};
ghost use Rattle.dc_model.specs.Message.{request_of};
ghost use Rattle.dc_engine.specs.View.{kind_of};
ghost use Rattle.dc_split.specs.Routing as split;

use dc_bucket::hash_of;
use dc_engine::{Event, Inbox, Kind};
use dc_packet::read_request;

/// The core that an outer link belongs to.
fn core_of_link(cores: u64, link: u64) -> u64
    requires { 1 ≤ cores }
    ensures { result ≡ split.core_of_link cores link }
{
    link.saturating_sub(1) % cores
}

/// The number by which that core knows the link.
fn inner_link(cores: u64, link: u64) -> u64
    requires { 1 ≤ cores }
    ensures { result ≡ split.inner_link cores link }
{
    if link == 0 {
        return 0;
    }
    (link - 1) / cores + 1
}

/// The core of the question in a packet: by the hash of its name, in lower case. A packet that is no request goes to the first core.
fn core_of_request(cores: u64, packet: &[u8]) -> u64
    requires cores { 1 ≤ cores }
    requires packet { length packet.now ≤ 65535 }
    ensures { result ≡ split.core_of_request cores (request_of packet.now) }
{
    let Some(request) = read_request(packet) else {
        return 0;
    };
    u64::from(hash_of(request.name.lower().wire())) % cores
}

/// The core that an event goes to, where a tick goes to the core `due`.
#[tactic(auto, unfolding(dc_split::specs::Routing::core_by))]
pub(crate) fn core_of(cores: u64, due: u64, inbox: &Inbox) -> u64
    requires cores { 1 ≤ cores }
    requires due { due < cores }
    ensures core { result ≡ split.core_by inbox.now.kind cores due inbox.now }
    ensures within { result < cores }
{
    let event = inbox.event();
    match event.kind {
        Kind::Tick => due,
        Kind::Request => core_of_request(cores, inbox.bytes()),
        Kind::Datagram => core_of_link(cores, event.id),
        Kind::LinkUp => core_of_link(cores, event.id),
        Kind::LinkBytes => core_of_link(cores, event.id),
        Kind::LinkDown => core_of_link(cores, event.id),
        Kind::BindRefused => core_of_link(cores, event.id),
        Kind::ConnUp => event.id % cores,
        Kind::ConnBytes => event.id % cores,
        Kind::ConnDown => event.id % cores,
    }
}

/// The number in an event, as its core sees it.
#[tactic(auto, unfolding(dc_split::specs::Routing::number_by))]
pub(crate) fn inner_number(cores: u64, event: Event) -> u64
    requires { 1 ≤ cores }
    ensures { result ≡ split.number_by (kind_of event.kind) cores event.id }
{
    match event.kind {
        Kind::Datagram => inner_link(cores, event.id),
        Kind::LinkUp => inner_link(cores, event.id),
        Kind::LinkBytes => inner_link(cores, event.id),
        Kind::LinkDown => inner_link(cores, event.id),
        Kind::BindRefused => inner_link(cores, event.id),
        Kind::Tick => event.id,
        Kind::Request => event.id,
        Kind::ConnUp => event.id,
        Kind::ConnBytes => event.id,
        Kind::ConnDown => event.id,
    }
}

/// Whether an event is a Tick.
pub(crate) fn is_tick(inbox: &Inbox) -> bool
    ensures no { result ≡ false → inbox.now.kind ≢ tick }
    ensures yes { result ≡ true → inbox.now.kind ≡ tick }
{
    match inbox.event().kind {
        Kind::Tick => true,
        Kind::Request => false,
        Kind::Datagram => false,
        Kind::LinkUp => false,
        Kind::LinkBytes => false,
        Kind::LinkDown => false,
        Kind::BindRefused => false,
        Kind::ConnUp => false,
        Kind::ConnBytes => false,
        Kind::ConnDown => false,
    }
}

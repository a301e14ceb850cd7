//! The servers of the tree, and what they answer.
ghost use Rattle.std.specs.Prelude.{◌≡◌, ◌<◌, false, IfSome, find, option_map};
ghost use Rattle.std.specs.List.{range_with_len};
ghost use Rattle.dc_model.specs.Name.{under, same};
ghost use Rattle.dc_simulation.specs.Tree as tree;
ghost use Rattle.dc_sim.specs.Replies.{content_by};
ghost use Rattle.dc_sim.specs.Servers.{server_of, IsPlaced};

use crate::names::{host_name, top_name, top_server_name, zone_name, zone_server_name};
use crate::reply::Reply;
use dc_name::Name;

/// The address of the root's server.
const ROOT: [u8; 4] = [10, 0, 0, 1];

/// A server of the tree.
#[derive(Clone, Copy, Debug)]
pub(crate) enum Server {
    /// That of the root.
    Root,
    /// That of `tK`.
    Top { k: u8 },
    /// That of `zJ.tK`.
    Zone { j: u8, k: u8 },
}

impl Server {
    /// The server at an address.
    #[tactic(auto, unfolding(dc_simulation::specs::Tree::server_at))]
    pub(crate) fn at(addr: [u8; 4]) -> Option<Server>
        ensures server { option_map server_of result ≡ tree.server_at addr }
        ensures placed { IfSome result (λ s. IsPlaced s) }
    {
        let [_, _, c, d] = addr;
        if addr == ROOT {
            Some(Server::Root)
        } else if addr == [10, 1, c, 1] && c < 16 {
            Some(Server::Top { k: c })
        } else if addr == [10, 2, c, d] && c < 16 && d < 16 {
            Some(Server::Zone { j: d, k: c })
        } else {
            None
        }
    }

    /// What it answers of a name.
    #[tactic(auto, unfolding(dc_simulation::specs::Tree::content_of))]
    pub(crate) fn reply(self, over_tcp: bool, name: &Name) -> Reply
        requires { IsPlaced self }
        ensures { content_by result ≡ tree.content_of (server_of self) over_tcp name.now }
    {
        match self {
            Server::Root => root_reply(name),
            Server::Top { k } => top_reply(k, name),
            Server::Zone { j, k } => zone_reply(j, k, over_tcp, name),
        }
    }
}

/// The name of the top that a name is under.
fn top_of(name: &Name) -> Option<u8>
    ensures { result ≡ find (λ k. under name.now (tree.top_name k)) tree.sixteen }
{
    (0..16u8).find(|k| name.under(&top_name(*k)))
}

/// The zone of `tK` that a name is under.
fn zone_of(k: u8, name: &Name) -> Option<u8>
    ensures { result ≡ find (λ j. under name.now (tree.zone_name j k)) tree.sixteen }
{
    (0..16u8).find(|j| name.under(&zone_name(*j, k)))
}

/// The host of `zJ.tK` that a name is.
fn host_of(j: u8, k: u8, name: &Name) -> Option<u8>
    ensures below { IfSome result (λ i. i < 15) }
    ensures host { result ≡ find (λ i. same name.now (tree.host_name i j k)) (range_with_len 0 15) }
{
    (0..15u8).find(|i| name.same(&host_name(*i, j, k)))
}

/// The root's server knows those of the top.
#[tactic(auto, unfolding(dc_simulation::specs::Tree::content_of))]
fn root_reply(name: &Name) -> Reply
    ensures { content_by result ≡ tree.content_of tree.of_root false name.now }
{
    match top_of(name) {
        None => Reply::Missing {
            authority: false,
            zone: Name::root(),
            server: Name::root(),
        },
        Some(k) => Reply::Referral {
            zone: top_name(k),
            server: top_server_name(k),
            addr: [10, 1, k, 1],
        },
    }
}

/// That of `tK` knows its own address, and those of the zones.
#[tactic(auto, unfolding(dc_simulation::specs::Tree::content_of))]
fn top_reply(k: u8, name: &Name) -> Reply
    ensures { content_by result ≡ tree.content_of (tree.of_top k) false name.now }
{
    let server = top_server_name(k);
    if name.same(&server) {
        return Reply::Server {
            authority: false,
            name: server,
            addr: [10, 1, k, 1],
        };
    }
    match zone_of(k, name) {
        None => Reply::Missing {
            authority: false,
            zone: top_name(k),
            server,
        },
        Some(j) => Reply::Referral {
            zone: zone_name(j, k),
            server: zone_server_name(j, k),
            addr: [10, 2, k, j],
        },
    }
}

/// That of `zJ.tK` knows its own address, and fifteen hosts. Over UDP that of `z15.tK` says nothing.
#[tactic(auto, unfolding(dc_simulation::specs::Tree::content_of))]
fn zone_reply(j: u8, k: u8, over_tcp: bool, name: &Name) -> Reply
    requires j { j < 16 }
    requires k { k < 16 }
    ensures { content_by result ≡ tree.content_of (tree.of_zone j k) over_tcp name.now }
{
    if j == 15 && !over_tcp {
        return Reply::Cut;
    }
    let server = zone_server_name(j, k);
    if name.same(&server) {
        return Reply::Server {
            authority: true,
            name: server,
            addr: [10, 2, k, j],
        };
    }
    match host_of(j, k, name) {
        None => Reply::Missing {
            authority: true,
            zone: zone_name(j, k),
            server,
        },
        Some(i) => host_reply(i, j, k),
    }
}

/// Twelve hosts have addresses, and three are aliases of hosts in the next zone.
fn host_reply(i: u8, j: u8, k: u8) -> Reply
    requires i { i < 15 }
    requires j { j < 16 }
    requires k { k < 16 }
    ensures { content_by result ≡ tree.host_content i j k }
{
    let name = host_name(i, j, k);
    if i < 12 {
        Reply::Host {
            name,
            addr: [10, 3, 16 * k + j, i + 1],
        }
    } else {
        Reply::Alias {
            name,
            target: host_name(i - 12, (j + 1) % 16, k),
        }
    }
}

//! The line of a record.
ghost use Rattle.std.specs.Prelude.{◌≡◌, length};
ghost use Rattle.dc_model.specs.Message.{HasNames};
ghost use Rattle.dc_model.specs.Puts as puts;
ghost use Rattle.dc_packet.specs.Data.{body_of};
ghost use Rattle.dc_lines.specs.Causes.{host_kind_of};

use dc_lines::{HostKind, Line, line_rr, line_rr_host, line_rr_mx, line_rr_soa};
use dc_name::Name;
use dc_packet::{Data, u32_at};
use dc_types::rtype;

/// The word for a type whose data is a name.
fn host_kind(kind: u16) -> HostKind
    ensures { host_kind_of result ≡ puts.host_kind kind }
{
    if kind == rtype::NS {
        HostKind::Ns
    } else if kind == rtype::CNAME {
        HostKind::Cname
    } else {
        HostKind::Ptr
    }
}

/// The five numbers of an SOA.
fn numbers_of(bytes: &[u8]) -> [u32; 5]
    requires { length bytes.now ≡ 20 }
    ensures { result ≡ puts.numbers_of bytes.now }
{
    [
        u32_at(bytes, 0),
        u32_at(bytes, 4),
        u32_at(bytes, 8),
        u32_at(bytes, 12),
        u32_at(bytes, 16),
    ]
}

/// What records of one pair have in common.
#[derive(Drop)]
pub(crate) struct Shared {
    /// The server that sent them.
    pub(crate) server: [u8; 4],
    /// For how many seconds they are known.
    pub(crate) ttl: u32,
    /// Their type.
    pub(crate) kind: u16,
    /// Their owner, in lower case.
    pub(crate) owner: Name,
}

/// Writes the line of a record with this data.
#[tactic(auto, unfolding(dc_model::specs::Puts::rr_line))]
pub(crate) fn write_line(line: &mut Line, shared: &Shared, item: &Data<'_>)
    requires { HasNames (body_of item.now) }
    ensures { line.new ≡ puts.rr_line shared.now.server shared.now.ttl shared.now.kind shared.now.owner (body_of item.now) }
{
    let Shared {
        server,
        ttl,
        kind,
        owner,
    } = shared;
    match item {
        Data::Bytes(bytes) => line_rr(line, *server, *ttl, *kind, owner, bytes),
        Data::Host(host) => line_rr_host(line, *server, *ttl, host_kind(*kind), owner, host),
        Data::Mx(preference, host) => line_rr_mx(line, *server, *ttl, owner, host, *preference),
        Data::Soa(primary, mailbox, numbers) => {
            line_rr_soa(
                line,
                *server,
                *ttl,
                owner,
                primary,
                mailbox,
                numbers_of(numbers),
            );
        }
    }
}

//! Data that was read, for a reply.
ghost use Rattle.std.specs.Prelude.{◌≡◌};
ghost use Rattle.dc_packet.specs.Data.{body_of};
ghost use Rattle.dc_reply.specs.Bodies as drafted;

use dc_packet::Data;
use dc_reply::Body;

/// The data of a record as a reply takes it. Names and bytes are lent.
pub(crate) fn lent<'a>(item: &'a Data<'_>) -> Body<'a>
    ensures { drafted.body_of result ≡ body_of item.now }
{
    match item {
        Data::Bytes(bytes) => Body::Bytes(bytes),
        Data::Host(name) => Body::Host(name),
        Data::Mx(preference, name) => Body::Mx(*preference, name),
        Data::Soa(primary, mailbox, numbers) => Body::Soa(primary, mailbox, numbers),
    }
}

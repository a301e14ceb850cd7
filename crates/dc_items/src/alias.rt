//! The target of a cached alias.
ghost use Rattle.std.specs.Prelude.{◌≡◌};
ghost use Rattle.dc_model.specs.Bodies.{target_of};

use crate::plain::plain_name;
use dc_name::Name;

/// The target of a cached CNAME: the name at the front of its body (RFC 1035, 3.3.1). `None` where no whole name without
/// pointers stands there.
#[tactic(auto, unfolding(dc_model::specs::Bodies::target_of))]
pub fn target(body: &[u8]) -> Option<Name>
    ensures { result ≡ target_of body.now }
{
    let read = plain_name(body, 0)?;
    Some(read.name)
}

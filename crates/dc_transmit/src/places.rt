//! The places of servers.
ghost use Rattle.std.specs.Prelude.{◌≡◌, ◌≤◌, ◌<◌, IfSome};
ghost use Rattle.dc_transmit.specs.Rounds.{places_from, places_of};

/// The places of servers. 0.0.0.0 stands in an empty one.
pub(crate) type Servers = [[u8; 4]; 16];

/// What stands in an empty place.
pub(crate) const NO_ADDRESS: [u8; 4] = [0; 4];

/// The first place from `start` on that isn't empty.
pub(crate) fn filled_place(servers: &Servers, start: usize) -> Option<usize>
    requires { start ≤ 16 }
    ensures places { places_from start servers.now ≡ places_of result servers.now }
    ensures range { IfSome result (λ place. place < 16) }
{
    for place in start..16 {
        if servers[place] != NO_ADDRESS {
            return Some(place);
        }
    }
    None
}

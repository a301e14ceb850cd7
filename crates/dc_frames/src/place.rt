//! The sixteen places for addresses of servers.
ghost use Rattle.std.specs.Prelude.{◌≡◌};
ghost use Rattle.dc_model.specs.Places as model;

/// Whether a place is empty: 0.0.0.0 stands in it.
fn is_empty(address: [u8; 4]) -> bool
    ensures { result ≡ model.is_empty_place address }
{
    (address[0] == 0) & ((address[1] == 0) & ((address[2] == 0) & (address[3] == 0)))
}

/// Puts an address into the first empty place, where there is one.
#[tactic(auto, using(crate::proofs::PlaceLemmas::places, std::proofs::lemmas::Grind::common_steps))]
pub(crate) fn place(places: &mut [[u8; 4]; 16], address: [u8; 4])
    ensures { places.new ≡ model.add_address address places.old }
{
    for i in 0..16 {
        if is_empty(places[i]) {
            places[i] = address;
            return;
        }
    }
}

/// Whether each place is empty.
#[tactic(auto, using(crate::proofs::PlaceLemmas::places, std::proofs::lemmas::Grind::common_steps))]
pub(crate) fn none_placed(places: &[[u8; 4]; 16]) -> bool
    ensures { result ≡ model.all_empty places.now }
{
    for i in 0..16 {
        if !is_empty(places[i]) {
            return false;
        }
    }
    true
}

// Whether two ring states (document 01: ring records) are the same, their loads in every place, for the programs that run stored cases.
#![tactic(auto)]

ghost use Rattle.std.specs.Prelude.{◌≡◌, true};

use model::RingState;

// Whether two ring states (document 01: ring records) are the same, also in the places behind the live bookings.
pub fn same_state(ours: RingState, theirs: RingState) -> bool
    ensures { result ≡ true → ours ≡ theirs }
{
    comparing::same_ring(ours.ring, theirs.ring) && ours.load == theirs.load
}

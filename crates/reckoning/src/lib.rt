// A load beside its ring, its figures "kept up to date" (document 02, Note 5). Inner calls: the ring is a good one, and the live bookings are
// within their bounds.
#![tactic(auto)]

ghost use Rattle.std.specs.Prelude.{◌≡◌, ◌≤◌};
ghost use Rattle.model.specs.Bookings.{live_bookings};
ghost use Rattle.model.specs.States.{reckoned};
ghost use Rattle.model.specs.Laws.Bookings.{AllBookable, OnRing};
ghost use Rattle.reckoning.specs.Loads.{with_load};

use model::{Load, Ring, RingAnswer, RingState, StateAnswer};

// "after each booking, cancellation, step or scan it gives every generator's watts, kept up to date": a load on a ring whose choices are
// planned anew. "Choices don't depend on load."
pub fn reckoned_load(ring: Ring, load: Load) -> RingState
    requires size { (3 ≤ ring.n) × (ring.n ≤ 20) }
    requires live { load.live ≤ 64 }
    requires bounds { AllBookable ring.n (live_bookings load) }
    ensures { result ≡ reckoned ring load }
{
    let planned = planner::plan(ring.n, ring.health);
    let choices = planned.choices;
    let figured = figures::with_figures(choices, load);
    RingState {
        ring,
        load: figured,
    }
}

// The answer of an inner call, with the load beside the ring: "kept up to date" where it was served, as it was where it was refused.
pub fn with_load(answer: RingAnswer, load: Load) -> StateAnswer
    requires { answer.outcome ≡ Ok tt → (load.live ≤ 64) × OnRing answer.choices (live_bookings load) }
    ensures { result ≡ with_load answer load }
{
    let outcome = answer.outcome;
    let ring = answer.ring;
    let choices = answer.choices;
    match outcome {
        Ok(()) => {
            let anew = figures::with_figures(choices, load);
            let state = RingState { ring, load: anew };
            StateAnswer {
                outcome: Ok(()),
                state,
                choices,
            }
        }
        Err(refusal) => {
            let state = RingState { ring, load };
            StateAnswer {
                outcome: Err(refusal),
                state,
                choices,
            }
        }
    }
}

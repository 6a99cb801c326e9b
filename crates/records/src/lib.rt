// The ring state (document 01: ring record) that is refused by 9: what every call that takes one checks first.
#![tactic(auto)]

ghost use Rattle.std.specs.Prelude.{◌≡◌, ◌≤◌};
ghost use Rattle.model.specs.Bookings.{bad_load};
ghost use Rattle.model.specs.States.{bad_record};
ghost use Rattle.model.specs.Laws.Choosing.{AllInside};

use model::{BusChoice, Load, RingState};

// "Refusal 9 is also met by more than 64 live, a number live twice, a bus or watts outside these bounds, or figures other than theirs."
// (document 02): no place is read before the number of the live ones is checked, and nothing is added up before the watts are.
fn bad_load(n: u8, choices: [BusChoice; 20], load: Load) -> bool
    requires { (n ≤ 20) × AllInside n choices }
    ensures { result ≡ bad_load n choices load }
{
    if 64 < load.live {
        return true;
    }
    if bookings::live_twice(load) {
        return true;
    }
    if bookings::any_outside(n, load) {
        return true;
    }
    figures::other_figures(choices, load)
}

// "In a record, number 9 is met when n is outside 3 to 20, a health is not one of its part's kind, a part above n is not fit or not
// ordered off or open, or the standing orders differ from those the health calls for."; "A part above n must be unlocked, or the record meets
// refusal 9; the standing orders there are those that health and locks call for." (document 02, Note 7); then what it is also met by.
#[tactic(auto, using(model::specs::Laws::Refusals::size_bounds))]
pub fn bad_record(state: RingState) -> bool
    ensures { result ≡ bad_record state }
{
    let ring = state.ring;
    if components::size_outside(ring.n) {
        return true;
    }
    if healths::health_outside(20, ring.health) {
        return true;
    }
    if standing::active_above(ring.n as usize, ring.health, ring.commands) {
        return true;
    }
    if standing::locked_above(ring.n as usize, ring.health) {
        return true;
    }
    let planned = planner::plan(ring.n, ring.health);
    if standing::differ(ring.commands, planned.commands) {
        return true;
    }
    let choices = planned.choices;
    let load = state.load;
    bad_load(ring.n, choices, load)
}

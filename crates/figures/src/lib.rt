// The figures of a load (document 02, Note 5): "every generator's watts, .. equal to those of the live bookings on the buses it feeds, and
// the watts on dark buses". Places of arrays are indices from 0; a choice has a generator's number, from 1, a booking its bus's.
#![tactic(auto)]

ghost use Rattle.std.specs.Prelude.{◌≡◌, ◌≤◌};
ghost use Rattle.model.specs.Bookings.{live_bookings, with_figures, other_figures};
ghost use Rattle.model.specs.Laws.Bookings.{OnRing};

use model::{BusChoice, Choice, Load};

// A load with its figures made anew. An inner call: the live bookings are within their bounds, and the choices those of a ring.
pub fn with_figures(choices: [BusChoice; 20], load: Load) -> Load
    requires live { load.live ≤ 64 }
    requires ring { OnRing choices (live_bookings load) }
    ensures { result ≡ with_figures choices load }
{
    let mut watts = [0u32; 20];
    let mut dark_watts = 0u32;
    let live = bookings::live(&load);
    for booking in live {
        let fed = choices[(booking.bus - 1) as usize];
        let choice = fed.choice;
        match choice {
            Choice::Dark => dark_watts += booking.watts,
            Choice::Own(generator) | Choice::High(generator) | Choice::Low(generator) => {
                watts[(generator - 1) as usize] += booking.watts;
            }
        }
    }
    Load {
        watts,
        dark_watts,
        ..load
    }
}

// 9: "figures other than theirs"
pub fn other_figures(choices: [BusChoice; 20], load: Load) -> bool
    requires live { load.live ≤ 64 }
    requires ring { OnRing choices (live_bookings load) }
    ensures { result ≡ other_figures choices load }
{
    let theirs = with_figures(choices, load);
    load.watts != theirs.watts || load.dark_watts != theirs.dark_watts
}

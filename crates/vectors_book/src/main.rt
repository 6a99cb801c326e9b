// Stored bookings and cancellations, with damaged records, held against the simulation's answers: see tests/make_vectors.py for the layout
// of a case.
#![tactic(auto)]

ghost use Rattle.std.specs.Prelude.{◌≡◌, length};

use model::BookingAnswer;
use std::io;

// The case's call.
fn answer_of(case: &[u8]) -> BookingAnswer
    requires { length case.now ≡ 1357 }
{
    let state = loads::state_at(case, case[0], 1);
    if case[674] == 1 {
        return control::cancel(state, loads::number_at(case, 675));
    }
    control::book(state, loads::booking_at(case, 675))
}

// Whether the whole answer is the simulation's.
fn agrees(case: &[u8]) -> bool
    requires { length case.now ≡ 1357 }
{
    answers::same_booking(answer_of(case), case, 682)
}

fn main(rt: HostRuntime) -> io::Result<()> {
    tally::run(&rt, &mut [0u8; 1357], |_file, case| agrees(case))
}

// Stored starts and steps, with damaged records and short buffers, held against the simulation's answers: see
// tests/make_vectors.py for the layout of a case.
#![tactic(auto)]

ghost use Rattle.std.specs.Prelude.{◌≡◌, length};

use model::StateAnswer;
use std::io;
use std::io::Read;

// The case's call.
fn answer_of(case: &[u8], buffer: &mut [u8]) -> StateAnswer
    requires { length case.now ≡ 1394 }
{
    if case[1] == 255 {
        return control::start(case[0], buffer);
    }
    let state = loads::state_at(case, case[0], 2);
    let report = answers::report_at(case, 675);
    control::step(state, report, buffer)
}

// Whether the whole answer, and the buffer after the call, are the simulation's. A byte of the case is the buffer's length.
fn agrees<R: Read>(stored: &mut R, case: &[u8]) -> bool
    requires { length case.now ≡ 1394 }
{
    tally::agrees_in_room(stored, case[678] as usize, |buffer| {
        answers::same(answer_of(case, buffer), case, 679)
    })
}

fn main(rt: HostRuntime) -> io::Result<()> {
    tally::run(&rt, &mut [0u8; 1394], |stored, case| agrees(stored, case))
}

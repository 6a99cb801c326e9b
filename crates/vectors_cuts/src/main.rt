// Stored minimal cut sets, with damaged records, buses outside the ring and short buffers, held against the simulation's answers: see
// tests/make_vectors.py for the layout of a case.
#![tactic(auto)]

ghost use Rattle.std.specs.Prelude.{◌≡◌, length};

use model::CutSetsAnswer;
use std::io;
use std::io::Read;

// Whether the outcome and the count are the simulation's.
fn same_answer(answer: CutSetsAnswer, case: &[u8]) -> bool
    requires { length case.now ≡ 680 }
{
    let outcome = answer.outcome;
    cases::outcome_number(outcome) == case[677] && answer.count == loads::number_at(case, 678)
}

// Whether the whole answer, and the buffer after the call, are the simulation's. Two bytes of the case are the buffer's length.
fn agrees<R: Read>(stored: &mut R, case: &[u8]) -> bool
    requires { length case.now ≡ 680 }
{
    let state = loads::state_at(case, case[0], 1);
    let bus = case[674];
    let room = loads::number_at(case, 675) as usize;
    tally::agrees_in_room(stored, room, |buffer| {
        same_answer(cutsets::list(state, bus, buffer), case)
    })
}

fn main(rt: HostRuntime) -> io::Result<()> {
    tally::run(&rt, &mut [0u8; 680], |stored, case| agrees(stored, case))
}

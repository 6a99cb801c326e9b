// Load bookings for a class: reads n, then calls of 194 bytes each, the number of a kind (0 a report, 1 a scan, 2 a booking, 3 a
// cancellation) and what the call takes, and prints a line for the start and one for each call: the watts of each generator and on dark
// buses, or its refusal. What it prints is proved in `loadlines` and `heads`.
#![tactic(auto)]

ghost use Rattle.std.specs.Prelude.{◌≤◌, length};
ghost use Rattle.model.specs.Text.{line_room};

use model::{BookingAnswer, Refusal, RingState, StateAnswer};
use reading::Failed;
use std::io;
use std::io::Read;

// What a call gives but for the choices: its outcome and the ring state.
fn without_choices(answer: StateAnswer) -> BookingAnswer {
    let outcome = answer.outcome;
    let state = answer.state;
    BookingAnswer { outcome, state }
}

// A call on the ring state that the one before it gave.
fn answer_of(state: RingState, case: &[u8; 194]) -> BookingAnswer {
    let mut sheet = [0u8; 122];
    match case[0] {
        0 => without_choices(control::step(state, answers::report_at(case, 1), &mut sheet)),
        1 => without_choices(control::scan(state, answers::scan_at(case, 1), &mut sheet)),
        2 => control::book(state, loads::booking_at(case, 1)),
        _ => control::cancel(state, loads::number_at(case, 1)),
    }
}

// Prints the figures of a ring of n, or the refusal.
fn print_answer(rt: &impl Print, n: u8, answer: BookingAnswer, out: &mut [u8]) -> io::Result<()>
    requires { (n ≤ 20) × (line_room ≤ length out.old) }
{
    let outcome = answer.outcome;
    let load = answer.state.load;
    match outcome {
        Ok(()) => {
            let length = loadlines::figures_line(n, load, out);
            rt.write_all(&out[..length])
        }
        Err(refusal) => {
            let length = heads::refused_text(words::refusal_number(refusal), out);
            rt.write_all(&out[..length])
        }
    }
}

// The calls, each of which gets the ring state that the one before it gave; at most 9999, as `ringscan` takes.
fn print_calls<R: Read>(
    rt: &(impl Print + Eprint),
    source: &mut R,
    n: u8,
    started: RingState,
    out: &mut [u8],
) -> io::Result<()>
    requires { (n ≤ 20) × (line_room ≤ length out.old) }
{
    let mut state = started;
    for _ in 1..10000usize {
        let mut case = [0u8; 194];
        match reading::read_full(source, &mut case) {
            Ok(194) => {}
            Ok(0) | Err(Failed { size: 0 }) => break,
            _ => {
                let _ = rt.eprintln("ringload: the last call is broken off");
                break;
            }
        }
        let answer = answer_of(state, &case);
        print_answer(rt, n, answer, out)?;
        state = answer.state;
    }
    Ok(())
}

// The start and the calls, or the refusal of n.
fn print_ring<R: Read>(
    rt: &(impl Print + Eprint),
    source: &mut R,
    n: u8,
    out: &mut [u8],
) -> io::Result<()>
    requires { line_room ≤ length out.old }
{
    if components::size_outside(n) {
        let length = heads::refused_text(words::refusal_number(Refusal::SizeOutside), out);
        return rt.write_all(&out[..length]);
    }
    let mut sheet = [0u8; 122];
    let answer = without_choices(control::start(n, &mut sheet));
    let state = answer.state;
    print_answer(rt, n, answer, out)?;
    print_calls(rt, source, n, state, out)
}

fn main(rt: HostRuntime) {
    let mut first = [0u8; 1];
    let mut stdin = rt.stdin();
    if reading::read_full(&mut stdin, &mut first) != Ok(1) {
        let _ = rt.eprintln("ringload: standard input is empty");
        return;
    }
    let mut out = [0u8; 553];
    if print_ring(&rt, &mut stdin, first[0], &mut out).is_err() {
        let _ = rt.eprintln("ringload: standard output cannot be written");
    }
}

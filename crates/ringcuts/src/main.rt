// The program: reads a fault file from standard input and prints the minimal cut sets of every bus after its last report. What it prints
// is proved in `latest`, `listing` and `heads`: here is a read, a loop over the buses, and a write for each.
#![tactic(auto)]

ghost use Rattle.std.specs.Prelude.{◌≤◌, length};
ghost use Rattle.model.specs.CutText.{text_room};

use model::{Refusal, Ring};
use std::io;

// Prints the texts of the buses in turn.
fn print_buses(rt: &impl Print, ring: Ring, out: &mut [u8]) -> io::Result<()>
    requires { text_room ≤ length out.old }
{
    let mut sheet = [0u8; 108155];
    for number in 1..=ring.n {
        let length = listing::bus_text(ring, number, &mut sheet, out);
        rt.write_all(&out[..length])?;
    }
    Ok(())
}

// Prints the refusal of a file as its run has it.
fn print_refused(rt: &impl Print, refusal: Refusal, out: &mut [u8]) -> io::Result<()>
    requires { text_room ≤ length out.old }
{
    let length = heads::refused_text(words::refusal_number(refusal), out);
    rt.write_all(&out[..length])
}

// Prints the cut sets of a file, or its refusal.
fn print_file(rt: &impl Print, file: &[u8], out: &mut [u8]) -> io::Result<()>
    requires { text_room ≤ length out.old }
{
    let answer = latest::ring_after(file);
    let outcome = answer.outcome;
    match outcome {
        Ok(()) => print_buses(rt, answer.ring, out),
        Err(refusal) => print_refused(rt, refusal, out),
    }
}

// kept: a main shared with the other programs of a file would take a name, a buffer and a closure, in as many lines
fn main(rt: HostRuntime) {
    let mut file = [0u8; 8196];
    let Ok(size) = reading::read_file(&mut rt.stdin(), &mut file) else {
        let _ = rt.eprintln("ringcuts: standard input cannot be read");
        return;
    };
    let mut out = [0u8; 540775];
    if print_file(&rt, &file[..size], &mut out).is_err() {
        let _ = rt.eprintln("ringcuts: standard output cannot be written");
    }
}

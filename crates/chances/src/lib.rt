// The chance of a dark hour (document 02, Note 8) of every bus after a fault file's last report, as text in the front of a lent buffer: a line
// a bus, or the refusal of the file. Buses are numbers, from 1.
#![tactic(auto)]

ghost use Rattle.std.specs.Prelude.{◌≡◌, ◌+◌, ◌<◌, ◌≤◌, length};
ghost use Rattle.model.specs.Sheet.{written};
ghost use Rattle.model.specs.ExposureText.{exposure_room, bus_exposure_line, exposure_lines, exposures_room, printed_exposures};
ghost use Rattle.model.specs.Laws.Appended.{Appended};

use model::{Rates, Ring, RingState};

// The line of a bus of a ring without bookings, stored from `at` on: the place behind it.
fn append_bus(rates: Rates, ring: Ring, bus: u8, out: &mut [u8], at: usize) -> usize
    requires { (bus < 100) × (at + exposure_room ≤ length out.old) }
    ensures text { Appended (bus_exposure_line rates ring bus) out.old at out.new result }
    ensures within { result ≤ at + exposure_room }
{
    let load = rings::no_load();
    let state = RingState { ring, load };
    let answer = exposure::of_bus(state, bus, rates);
    exposurelines::append_line(bus, answer, out, at)
}

// The lines of all buses.
fn append_buses(rates: Rates, ring: Ring, out: &mut [u8]) -> usize
    requires { (ring.n ≤ 20) × (exposures_room ≤ length out.old) }
    ensures text { Appended (exposure_lines rates ring ring.n) out.old 0 out.new result }
    ensures within { result ≤ exposures_room }
{
    let n = ring.n;
    let mut end = 0;
    for b in 0..n {
        end = append_bus(rates, ring, b + 1, out, end);
    }
    end
}

// The text of a file, and its length.
pub fn text(rates: Rates, file: &[u8], out: &mut [u8]) -> usize
    requires { exposures_room ≤ length out.old }
    ensures bytes { out.new ≡ written (printed_exposures rates file.now) out.old }
    ensures end { result ≡ length (printed_exposures rates file.now) }
    ensures within { result ≤ length out.new }
{
    let answer = latest::ring_after(file);
    match answer.outcome {
        Ok(()) => append_buses(rates, answer.ring, out),
        Err(refusal) => heads::refused_text(words::refusal_number(refusal), out),
    }
}

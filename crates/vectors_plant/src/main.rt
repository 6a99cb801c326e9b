// Stored reckonings, held against the simulation's answers: see tests/make_vectors.py for the layout of a case.
#![tactic(auto)]

ghost use Rattle.std.specs.Prelude.{◌≡◌, length};

use model::{BusFeed, Feed, FeedsAnswer};
use std::io;

// Whether a bus's answer is the three bytes: 0 dark, 1 fed, 2 a clash, and the generators named.
fn same_feed(bus: BusFeed, kind: u8, first: u8, second: u8) -> bool {
    let feed = bus.feed;
    match feed {
        Feed::Dark => kind == 0,
        Feed::Fed(g) => kind == 1 && g == first,
        Feed::Clash(g, h) => kind == 2 && (g == first && h == second),
    }
}

// Whether the buses have the answers of the case, three bytes each.
fn same_feeds(answer: FeedsAnswer, case: &[u8]) -> bool
    requires { length case.now ≡ 202 }
{
    let buses = answer.buses;
    let mut same = true;
    for b in 0..20 {
        let at = 142 + 3 * b;
        same &= same_feed(buses[b], case[at], case[at + 1], case[at + 2]);
    }
    same
}

// Whether the reckoning of the case is the simulation's.
fn agrees(case: &[u8]) -> bool
    requires { length case.now ≡ 202 }
{
    let health = cases::health_at(case, 1);
    let commands = cases::commands_at(case, 81);
    let answer = plant::feeds(case[0], health, commands);
    let outcome = answer.outcome;
    cases::outcome_number(outcome) == case[141] && same_feeds(answer, case)
}

fn main(rt: HostRuntime) -> io::Result<()> {
    tally::run(&rt, &mut [0u8; 202], |_file, case| agrees(case))
}

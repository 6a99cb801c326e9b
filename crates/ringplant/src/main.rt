// The plant reckoning for a class: reads n, the health of the sixty parts, the locks of the generators (1 is locked) and the parts' commands
// (1 is on or closed), a byte each, and prints what feeds each bus.
#![tactic(auto)]

use model::{BusFeed, Feed, FeedsAnswer};
use std::io;

// "For each bus its answer is one of three: dark, fed by one generator, or a clash that names the two lowest generators
// feeding it."
fn print_feed(rt: &impl Print, number: u8, feed: Feed) -> io::Result<()> {
    match feed {
        Feed::Dark => println!(rt; "B{number} dark"),
        Feed::Fed(g) => println!(rt; "B{number} G{g}"),
        Feed::Clash(g, h) => println!(rt; "B{number} clash G{g} G{h}"),
    }
}

// A line for each bus of the ring.
fn print_buses(rt: &impl Print, n: u8, buses: &[BusFeed]) -> io::Result<()> {
    for (number, bus) in (1..=n).zip(buses) {
        print_feed(rt, number, bus.feed)?;
    }
    Ok(())
}

// The answer, or the number of its refusal.
fn print_answer(rt: &impl Print, n: u8, answer: FeedsAnswer) -> io::Result<()> {
    if let Err(refusal) = answer.outcome {
        let number = words::refusal_number(refusal);
        return println!(rt; "refused {number}");
    }
    let buses = answer.buses;
    print_buses(rt, n, &buses)
}

// "The plant reckoning takes n, the health of all parts and any set of orders.", the locks "with the health" (document 02, Note 7).
fn reckoned(case: &[u8; 141]) -> FeedsAnswer {
    let health = cases::health_at(case, 1);
    let commands = cases::commands_at(case, 81);
    plant::feeds(case[0], health, commands)
}

fn main(rt: HostRuntime) {
    let mut case = [0u8; 141];
    if reading::read_full(&mut rt.stdin(), &mut case) != Ok(141) {
        let _ = rt.eprintln("ringplant: standard input has fewer than 141 bytes");
        return;
    }
    if print_answer(&rt, case[0], reckoned(&case)).is_err() {
        let _ = rt.eprintln("ringplant: standard output cannot be written");
    }
}

// What feeds each bus after every operation (document 01: stroke): reads a fault file from standard input and prints, for each
// call, a line for the ring after the word and before the first operation, and a line after each operation of both phases.
#![tactic(auto)]

use model::{BusFeed, Commands, Feed, Health, Ring, RingState};
use std::{fmt, io};

// "For each bus its answer is one of three": `-` dark, `G2` fed, `G1!G2` a clash.
#[derive(Clone, Copy)]
struct FeedText(Feed);

impl fmt::Display for FeedText {
    fn fmt<W: fmt::Write>(&self, f: &mut fmt::Formatter<W>) -> fmt::Result {
        match self.0 {
            Feed::Dark => write!(f, "-"),
            Feed::Fed(g) => write!(f, "G{g}"),
            Feed::Clash(g, h) => write!(f, "G{g}!G{h}"),
        }
    }
}

// The answers of all buses of a ring: ` B1=` and the answer, for each.
#[derive(Clone, Copy)]
struct FeedsText {
    n: u8,
    buses: [BusFeed; 20],
}

impl fmt::Display for FeedsText {
    fn fmt<W: fmt::Write>(&self, f: &mut fmt::Formatter<W>) -> fmt::Result {
        for (number, bus) in (1..=self.n).zip(&self.buses) {
            let feed = FeedText(bus.feed);
            write!(f, " B{number}={feed}")?;
        }
        Ok(())
    }
}

// The part of a code, as `BB2`.
#[derive(Clone, Copy)]
struct PartText(u8);

impl fmt::Display for PartText {
    fn fmt<W: fmt::Write>(&self, f: &mut fmt::Formatter<W>) -> fmt::Result {
        let code = self.0;
        match code {
            0..=19 => write!(f, "G{}", code + 1),
            32..=51 => write!(f, "GB{}", code - 31),
            64..=83 => write!(f, "BB{}", code - 63),
            _ => Ok(()),
        }
    }
}

// "A stroke sets its part's last order, stuck or not."
fn performed(commands: Commands, code: u8, on: bool) -> Commands {
    let mut next = commands;
    match code {
        0..=19 => next.generators[code as usize] = on,
        32..=51 => next.generator_breakers[(code - 32) as usize] = on,
        64..=83 => next.bus_breakers[(code - 64) as usize] = on,
        _ => {}
    }
    next
}

// What feeds each bus by the plant reckoning.
fn feeds(n: u8, health: Health, commands: Commands) -> FeedsText {
    let answer = plant::feeds(n, health, commands);
    let buses = answer.buses;
    FeedsText { n, buses }
}

// A line after each operation of a command sheet: its sizes, the codes of both phases, then the commands.
fn print_operations(
    rt: &impl Print,
    n: u8,
    health: Health,
    before: Commands,
    sheet: &[u8; 122],
) -> io::Result<()> {
    let size = sheet[0] as usize + sheet[1] as usize;
    let (codes, ons) = sheet[2..].split_at(size.min(120));
    let mut commands = before;
    for (code, on) in codes.iter().zip(ons) {
        let on = *on == 1;
        commands = performed(commands, *code, on);
        let part = PartText(*code);
        let sign = if on { '+' } else { '-' };
        let feeds = feeds(n, health, commands);
        println!(rt; "{part}{sign}{feeds}")?;
    }
    Ok(())
}

// A call: its number and the ring after its word, then its operations.
fn print_call(
    rt: &impl Print,
    number: usize,
    before: Commands,
    after: Ring,
    sheet: &[u8; 122],
) -> io::Result<()> {
    let health = after.health;
    let feeds = feeds(after.n, health, before);
    println!(rt; "{number}{feeds}")?;
    print_operations(rt, after.n, health, before, sheet)
}

// The calls of the reports.
fn print_reports(rt: &impl Print, first: RingState, codes: &[u8], words: &[u8]) -> io::Result<()> {
    let mut state = first;
    for i in 0..codes.len() {
        let ring = state.ring;
        let Ok(Some(report)) = reports::report_at(ring.n, codes, words, i) else {
            break;
        };
        let mut sheet = [0u8; 122];
        let answer = control::step(state, report, &mut sheet);
        state = answer.state;
        let after = state.ring;
        print_call(rt, i + 1, ring.commands, after, &sheet)?;
    }
    Ok(())
}

// The header, the start, and the calls of the reports.
fn print_served(rt: &impl Print, n: u8, codes: &[u8], words: &[u8]) -> io::Result<()> {
    let mut sheet = [0u8; 122];
    let answer = control::start(n, &mut sheet);
    let state = answer.state;
    let ring = state.ring;
    let off = Commands {
        generators: [false; 20],
        generator_breakers: [false; 20],
        bus_breakers: [false; 20],
    };
    let count = codes.len();
    println!(rt; "ring {n} reports {count}")?;
    print_call(rt, 0, off, ring, &sheet)?;
    print_reports(rt, state, codes, words)
}

// A file with m reports: the part codes from byte 3, then the words. One of no bytes (document 02, Note 9) is both of its stretches.
fn print_file(rt: &impl Print, n: u8, m: usize, file: &[u8]) -> io::Result<()> {
    if file.is_empty() {
        return print_served(rt, n, file, file);
    }
    match file.get(3..) {
        Some(rest) if m <= rest.len() => print_served(rt, n, &rest[..m], &rest[m..]),
        _ => Err(io::ErrorKind::InvalidData.into()),
    }
}

// The trace of a file, or the number of its refusal.
fn print_trace(rt: &impl Print, file: &[u8]) -> io::Result<()> {
    match files::check_file(file) {
        Ok(head) => print_file(rt, head.n, head.m, file),
        Err(refusal) => {
            let number = words::refusal_number(refusal);
            println!(rt; "refused {number}")
        }
    }
}

// kept: a main shared with the other programs of a file would take a name, a buffer and a closure, in as many lines
fn main(rt: HostRuntime) {
    // The longest file has 8,195 bytes: one byte more tells that a file is too long.
    let mut file = [0u8; 8196];
    let Ok(size) = reading::read_file(&mut rt.stdin(), &mut file) else {
        let _ = rt.eprintln("ringtrace: standard input cannot be read");
        return;
    };
    if print_trace(&rt, &file[..size]).is_err() {
        let _ = rt.eprintln("ringtrace: standard output cannot be written");
    }
}

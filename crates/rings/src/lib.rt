// Rings: the blank one, one that is told a report, and the answer that keeps one; and a load without bookings. Parts carry the
// paper's numbers, from 1; places are indices from 0.
#![tactic(auto)]

ghost use Rattle.std.specs.Prelude.{◌≡◌};
ghost use Rattle.model.specs.Values.{refusal_number};
ghost use Rattle.model.specs.Reports.{health_of, health_places, reported, blank_ring, told as told_ring};
ghost use Rattle.model.specs.Answers.{refused_answer};
ghost use Rattle.model.specs.Bookings.{no_load};
ghost use Rattle.rings.specs.Words.{stored, with_health, with_lock};

use model::{
    Booking, BusChoice, Choice, Commands, Health, Load, Part, Refusal, Report, Ring, RingAnswer,
    Word,
};

// Stores a value at a number of an array, from 1; a number of no place changes nothing.
fn store<T: Copy>(values: &mut [T], number: u8, value: T)
    ensures { values.new ≡ stored values.old «number» value }
{
    if 1 <= number && number as usize <= values.len() {
        values[(number - 1) as usize] = value;
    }
}

// A part's health after a word about it; every lock is kept.
fn with_health(health: Health, part: Part, value: u8) -> Health
    ensures { result ≡ health_places (with_health (health_of health) part value) }
{
    let mut next = health;
    match part {
        Part::Generator(number) => store(&mut next.generators, number, value),
        Part::GeneratorBreaker(number) => store(&mut next.generator_breakers, number, value),
        Part::BusBreaker(number) => store(&mut next.bus_breakers, number, value),
    }
    next
}

// A generator's lock after a word about it; every health is kept. A breaker has no lock.
fn with_lock(health: Health, part: Part, lock: bool) -> Health
    ensures { result ≡ health_places (with_lock (health_of health) part lock) }
{
    let mut after = health;
    if let Part::Generator(number) = part {
        store(&mut after.locked, number, lock);
    }
    after
}

// "The last word decides; one that repeats the present health is accepted." "Neither lock nor health alters the other: a replaced set that is
// locked remains locked." (document 02, Note 7): a word stores the one or the other.
fn with_word(health: Health, report: Report) -> Health
    ensures { result ≡ health_places (reported (health_of health) report) }
{
    let part = report.part;
    let word = report.word;
    match word {
        Word::Lock => with_lock(health, part, true),
        Word::Unlock => with_lock(health, part, false),
        Word::Fit | Word::StuckOff | Word::StuckOpen | Word::StuckClosed => {
            with_health(health, part, words::number_of(word))
        }
    }
}

// What a report does to a ring before any command: its word's effect on the health or the lock.
pub fn told(ring: Ring, report: Report) -> Ring
    ensures { result ≡ told_ring ring report }
{
    let before = ring.health;
    let after = with_word(before, report);
    let mut next = ring;
    next.health = after;
    next
}

// n buses, "every part fit and ordered off or open", and none locked.
pub fn blank(n: u8) -> Ring
    ensures { result ≡ blank_ring n }
{
    Ring {
        n,
        health: Health {
            generators: [0u8; 20],
            generator_breakers: [0u8; 20],
            bus_breakers: [0u8; 20],
            locked: [false; 20],
        },
        commands: Commands {
            generators: [false; 20],
            generator_breakers: [false; 20],
            bus_breakers: [false; 20],
        },
    }
}

// A load without bookings (document 02, Note 5).
pub fn no_load() -> Load
    ensures { result ≡ no_load }
{
    let none = Booking {
        number: 0,
        bus: 0,
        watts: 0,
    };
    Load {
        bookings: [none; 64],
        live: 0,
        watts: [0u32; 20],
        dark_watts: 0,
    }
}

// "Each has its number as the answer, the record as handed in and the buffer untouched."; "The choices of a refused
// start or step .. are all dark".
pub fn refused(number: u8, ring: Ring) -> RingAnswer
    ensures { result ≡ refused_answer number ring }
{
    let dark = BusChoice {
        choice: Choice::Dark,
    };
    RingAnswer {
        outcome: Err(words::refusal_of(number)),
        ring,
        choices: [dark; 20],
    }
}

// .. by the refusal itself.
pub fn refused_by(refusal: Refusal, ring: Ring) -> RingAnswer
    ensures { result ≡ refused_answer (refusal_number refusal) ring }
{
    refused(words::refusal_number(refusal), ring)
}

// What the programs that run stored calls of a ring share: the reports of a case, and whether an answer is the one that the case holds.
// Places are indices from 0.
#![tactic(auto)]

ghost use Rattle.std.specs.Prelude.{◌≡◌, true, ◌+◌, ◌≤◌, length};
ghost use Rattle.model.specs.declared.Part.{Part};
ghost use Rattle.model.specs.declared.Word.{Word};
ghost use Rattle.model.specs.declared.Report.{Report};
ghost use Rattle.model.specs.declared.Scan.{Scan};
ghost use Rattle.model.specs.Values.{word_number};
ghost use Rattle.answers.specs.Answers.{PartIn, ReportIn, ScanIn, ChoiceIn, ChoicesIn, RecordIn, AnswerIn};

use model::{
    BookingAnswer, BusChoice, Choice, Part, Refusal, Report, RingState, Scan, StateAnswer, Word,
};
use std::array;

// A part by the number of its kind and its own.
fn part_of(kind: u8, number: u8) -> Part
    ensures { (p : Part) → PartIn kind «number» p → result ≡ p }
{
    match kind {
        0 => Part::Generator(number),
        1 => Part::GeneratorBreaker(number),
        _ => Part::BusBreaker(number),
    }
}

// A word by its number; a case has no others.
fn word_of(number: u8) -> Word
    ensures { (w : Word) → word_number w ≡ «number» → result ≡ w }
{
    words::word_of(number).unwrap_or(Word::StuckClosed)
}

// The report of three bytes of a case: its part's kind and number, and its word.
pub fn report_at(case: &[u8], from: usize) -> Report
    requires { from + 3 ≤ length case.now }
    ensures { (x : Report) → ReportIn case.now from x → result ≡ x }
{
    Report {
        part: part_of(case[from], case[from + 1]),
        word: word_of(case[from + 2]),
    }
}

// The 64 places of a scan, three bytes each, also those past its count.
fn reports_at(case: &[u8], from: usize) -> [Report; 64]
    requires { from + 193 ≤ length case.now }
    ensures { (s : Scan) → ScanIn case.now from s → result ≡ s.reports }
{
    array::from_fn(|i| report_at(case, from + 1 + 3 * i))
}

// The scan that stands from an index on: its count, then its places.
pub fn scan_at(case: &[u8], from: usize) -> Scan
    requires { from + 193 ≤ length case.now }
    ensures { (s : Scan) → ScanIn case.now from s → result ≡ s }
{
    Scan {
        reports: reports_at(case, from),
        count: case[from],
    }
}

// Whether a choice is the letter and the source, which is 0 where the bus is dark.
fn same_choice(bus: BusChoice, letter: u8, source: u8) -> bool
    ensures { result ≡ true → ChoiceIn letter source bus }
{
    let choice = bus.choice;
    match choice {
        Choice::Dark => letter == b'-' && source == 0,
        Choice::Own(g) => letter == b'o' && g == source,
        Choice::High(g) => letter == b'h' && g == source,
        Choice::Low(g) => letter == b'l' && g == source,
    }
}

// Whether the buses have the choices of a case, two bytes each.
fn same_choices(choices: [BusChoice; 20], case: &[u8], from: usize) -> bool
    requires { from + 40 ≤ length case.now }
    ensures { result ≡ true → ChoicesIn 20 case.now from choices }
{
    // kept: with (0..20).all(..) the check leaves `returns` open, and the answer is longer than the loop's
    for b in 0..20 {
        let at = from + 2 * b;
        if !same_choice(choices[b], case[at], case[at + 1]) {
            return false;
        }
    }
    true
}

// Whether an outcome's number and a ring state are those that a case holds from an index on.
fn same_record(outcome: Result<(), Refusal>, state: RingState, case: &[u8], from: usize) -> bool
    requires { from + 675 ≤ length case.now }
    ensures { result ≡ true → RecordIn case.now from outcome state }
{
    if cases::outcome_number(outcome) != case[from] {
        return false;
    }
    comparing_loads::same_state(state, loads::state_at(case, case[from + 1], from + 2))
}

// Whether an answer is the one that a case holds from an index on: the number of the outcome, the ring state and the choices.
pub fn same(answer: StateAnswer, case: &[u8], from: usize) -> bool
    requires { from + 715 ≤ length case.now }
    ensures { result ≡ true → AnswerIn case.now from answer }
{
    let outcome = answer.outcome;
    let state = answer.state;
    let choices = answer.choices;
    if !same_record(outcome, state, case, from) {
        return false;
    }
    same_choices(choices, case, from + 675)
}

// Whether the answer of a booking or of a cancellation is the one that a case holds from an index on.
pub fn same_booking(answer: BookingAnswer, case: &[u8], from: usize) -> bool
    requires { from + 675 ≤ length case.now }
    ensures { result ≡ true → RecordIn case.now from answer.outcome answer.state }
{
    let outcome = answer.outcome;
    let state = answer.state;
    same_record(outcome, state, case, from)
}

// Part codes (document 01, "Fault file and reports"). Parts carry the paper's numbers, from 1; codes are counted from 0.
#![tactic(auto)]

ghost use Rattle.std.specs.Prelude.{◌≡◌};
ghost use Rattle.model.specs.Values.{number, index, first_code, part_code, part_values};
ghost use Rattle.model.specs.Reports.{part_named};
ghost use Rattle.model.specs.Refusals.{not_of_ring};
ghost use Rattle.model.specs.Answers.{part_answer, code_values};
ghost use Rattle.codes.specs.Codes.{of_ring};

use model::{Part, Refusal};

// The number of a part among those of its kind.
fn part_number(part: Part) -> u8
    ensures { result ≡ number part }
{
    match part {
        Part::Generator(number) => number,
        Part::GeneratorBreaker(number) => number,
        Part::BusBreaker(number) => number,
    }
}

// Condition 5 of a part: its number is none of the ring's. A ring has at most 20 of each kind.
pub fn not_of_ring(n: u8, part: Part) -> bool
    ensures { result ≡ not_of_ring n part }
{
    let number = part_number(part);
    number < 1 || (n < number || 20 < number)
}

// The part, if the ring has it.
fn named_in_ring(n: u8, part: Part) -> Result<Part, Refusal>
    ensures { result ≡ part_answer (of_ring n part) }
{
    if not_of_ring(n, part) {
        Err(Refusal::PartOutside)
    } else {
        Ok(part)
    }
}

// "Part codes: 0 to n − 1 are G1 to Gn, 32 to 31 + n are GB1 to GBn, 64 to 63 + n are BB1 to BBn." The
// test against n follows the range; numbers are from 1.
pub fn part_of(code: u8, n: u8) -> Result<Part, Refusal>
    ensures answer { result ≡ part_answer (part_named n code) }
    ensures values { part_values result ≡ code_values n code }
{
    match code {
        0..=19 => named_in_ring(n, Part::Generator(code + 1)),
        32..=51 => named_in_ring(n, Part::GeneratorBreaker(code - 31)),
        64..=83 => named_in_ring(n, Part::BusBreaker(code - 63)),
        _ => Err(Refusal::PartOutside),
    }
}

// The index of a number: places are counted from 0.
fn index_of(number: u8) -> u16
    ensures { result ≡ index number }
{
    if 0 < number { (number - 1) as u16 } else { 0 }
}

// The code of the first part of each kind.
fn first_code(part: Part) -> u16
    ensures { result ≡ first_code part }
{
    match part {
        Part::Generator(_) => 0,
        Part::GeneratorBreaker(_) => 32,
        Part::BusBreaker(_) => 64,
    }
}

// The code of a part: undoes `part_of`. The papers leave free the code of a number that no ring has. It is answered as that of
// the others is, by the kind's first code plus the number less 1 (plus 0 for the number 0), and so in more than a byte.
pub fn code_of(part: Part) -> u16
    ensures { result ≡ part_code part }
{
    first_code(part) + index_of(part_number(part))
}

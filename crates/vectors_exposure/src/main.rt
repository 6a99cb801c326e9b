// Stored chances of a dark hour (document 02, Note 8), with damaged records, buses outside the ring and rates that are turned away, held
// against the simulation's answers: see tests/make_vectors.py for the layout of a case.
#![tactic(auto)]

ghost use Rattle.std.specs.Prelude.{◌≡◌, length, not, T};
ghost use Rattle.std.specs.Float.Ieee.{is_nan};

use model::Exposure;
use std::io;

// Whether the figures are the simulation's: "Bits must equal this recipe's." Of a NaN none could be told; no answer has one.
fn same_figures(case: &[u8], figures: Exposure) -> bool
    requires size { length case.now ≡ 1234 }
    requires numbers { T (not (is_nan figures.sum)) × T (not (is_nan figures.largest)) }
{
    figures.count == loads::number_at(case, 1216)
        && f64::to_bits(figures.sum) == datasheets::bits_at(case, 1218)
        && f64::to_bits(figures.largest) == datasheets::bits_at(case, 1226)
}

// Whether the whole answer to a case's call is the simulation's.
fn agrees(case: &[u8]) -> bool
    requires { length case.now ≡ 1234 }
{
    let state = loads::state_at(case, case[0], 1);
    let answer = exposure::of_bus(state, case[674], datasheets::rates_at(case, 675));
    let outcome = answer.outcome;
    cases::outcome_number(outcome) == case[1215] && same_figures(case, answer.exposure)
}

fn main(rt: HostRuntime) -> io::Result<()> {
    tally::run(&rt, &mut [0u8; 1234], |_file, case| agrees(case))
}

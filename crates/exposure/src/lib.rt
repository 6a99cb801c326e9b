// The chance of a dark hour (document 02, Note 8): a bus's probability bound over its minimal cut sets, the API for any ring state, any bus and
// any rates. The sets are those that `cutsets::list` lays out, read from its sheet. The call's bus is a number, from 1; places are indices
// from 0.
#![tactic(auto)]

ghost use Rattle.std.specs.Prelude.{◌≡◌, not, ◌+◌, ◌*◌, ◌≤◌, ◌<◌, T, length};
ghost use Rattle.std.specs.Float.Ieee.{is_nan};
ghost use Rattle.model.specs.Plant.{largest};
ghost use Rattle.model.specs.Values.{outcome_number};
ghost use Rattle.model.specs.Exposure.{greater_of, exposure_refusal, no_exposure, exposure_answer};
ghost use Rattle.exposure.specs.Bytes.{
  times_code,
  product_at,
  unrated_code,
  with_product,
  figures_of,
  unrated_bytes,
  refused_exposure,
  sheet_answer,
};

use model::{Exposure, ExposureAnswer, Rates, Refusal, RingState};

// One factor more, where a byte of the sheet is a part's code: "with 255 for unused".
fn times(rates: Rates, product: f64, code: u8) -> f64
    ensures { result ≡ times_code rates product code }
{
    match codes::part_of(code, 20) {
        Ok(part) => product * rates::chance_of(rates::rate_of(rates, part)),
        Err(_) => product,
    }
}

// "Multiply each set's chances in part-code order from 1.0": of a set's three bytes.
fn product(rates: Rates, set: &[u8]) -> f64
    requires { length set.now ≡ 3 }
    ensures { result ≡ product_at rates set.now 0 }
{
    let first = times(rates, 1.0, set[0]);
    let second = times(rates, first, set[1]);
    times(rates, second, set[2])
}

// "gives way only to a greater product"
fn greater(largest: f64, product: f64) -> f64
    ensures { result ≡ greater_of largest product }
{
    if largest < product { product } else { largest }
}

// The figures before the first set, and of a refused call: "from 0.0", "The largest begins as 0.0".
fn no_figures() -> Exposure
    ensures { result ≡ no_exposure }
{
    Exposure {
        sum: 0.0,
        largest: 0.0,
        count: 0,
    }
}

// The figures with the product of one set more.
fn with_product(figures: Exposure, product: f64) -> Exposure
    requires { figures.count < 65535 }
    ensures { result ≡ with_product figures product }
{
    Exposure {
        sum: figures.sum + product,
        largest: greater(figures.largest, product),
        count: figures.count + 1,
    }
}

// "add the products in list order": the figures of the first `count` sets of a sheet.
fn reckon(rates: Rates, sheet: &[u8], count: usize) -> Exposure
    requires { (count ≤ 36051) × (2 + 3 * count ≤ length sheet.now) }
    ensures { result ≡ figures_of rates sheet.now count }
{
    let mut figures = no_figures();
    for set in sheet[2..2 + 3 * count].chunks_exact(3) {
        figures = with_product(figures, product(rates, set));
    }
    figures
}

// Whether a byte of the sheet is the code of an unrated part.
fn unrated_code(rates: Rates, code: u8) -> bool
    ensures { result ≡ unrated_code rates code }
{
    match codes::part_of(code, 20) {
        Ok(part) => rates::is_unrated(rates::rate_of(rates, part)),
        Err(_) => false,
    }
}

// 16: "an unrated part in a listed set", among the first `count` sets of a sheet.
fn unrated_listed(rates: Rates, sheet: &[u8], count: usize) -> bool
    requires { (count ≤ 36051) × (2 + 3 * count ≤ length sheet.now) }
    ensures { result ≡ unrated_bytes rates sheet.now (3 * count) }
{
    sheet[2..2 + 3 * count]
        .iter()
        .any(|code| unrated_code(rates, *code))
}

// "Each has its number as the answer", and "any figure beside the record 0".
fn refused(refusal: Refusal) -> ExposureAnswer
    ensures { result ≡ refused_exposure refusal }
{
    ExposureAnswer {
        outcome: Err(refusal),
        exposure: no_figures(),
    }
}

// The figures of the sets of a sheet, or 15, "then 16".
fn answered(n: usize, rates: Rates, sheet: &[u8], count: usize) -> ExposureAnswer
    requires { (n ≤ largest) × (count ≤ 36051) × (2 + 3 * count ≤ length sheet.now) }
    ensures { result ≡ sheet_answer n rates sheet.now count }
{
    if rates::some_outside(n, rates) {
        return refused(Refusal::RateOutside);
    }
    if unrated_listed(rates, sheet, count) {
        return refused(Refusal::Unrated);
    }
    ExposureAnswer {
        outcome: Ok(()),
        exposure: reckon(rates, sheet, count),
    }
}

// "For a bus, take the sets of Note 1 in their order.": it checks 9 and 10, as their list does, then 15, then 16. The list is made once, in a
// buffer that has room for every one.
pub fn of_bus(state: RingState, bus: u8, rates: Rates) -> ExposureAnswer
    ensures answer { result ≡ exposure_answer state bus rates }
    ensures number { outcome_number result.outcome ≡ exposure_refusal state bus rates }
    ensures figures { T (not (is_nan result.exposure.sum)) × T (not (is_nan result.exposure.largest)) }
{
    let mut sheet = [0u8; 108155];
    let list = cutsets::list(state, bus, &mut sheet);
    match list.outcome {
        Ok(()) => answered(state.ring.n as usize, rates, &sheet, list.count as usize),
        Err(refusal) => refused(refusal),
    }
}

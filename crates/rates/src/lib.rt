// The rates of parts (document 02, Note 8, "Chance of a dark hour"): the rate of a part, its chance, and the tests of 15 and of 16. Places of
// arrays are indices from 0, the paper's numbers less 1.
#![tactic(auto)]

ghost use Rattle.std.specs.Prelude.{◌≡◌, not, ◌&&◌, ◌||◌, ◌≤◌};
ghost use Rattle.std.specs.Float.Ieee.{lt, le};
ghost use Rattle.std.specs.Float.Ieee.Scale.{finite};
ghost use Rattle.model.specs.Plant.{largest, InRing};
ghost use Rattle.model.specs.Exposure.{float0, float1, rate_of, chance_of, rate_outside, some_outside, is_unrated};
ghost use Rattle.rates.specs.Places.{any_outside};

use model::{Part, PartRate, Rate, Rates};

// "Each part has a rate as its data sheet gives it": that of a part. An inner call: its callers know that the arrays hold the part.
pub fn rate_of(rates: Rates, part: Part) -> Rate
    requires { InRing largest part }
    ensures { result ≡ rate_of rates part }
{
    let held = match part {
        Part::Generator(number) => rates.generators[(number - 1) as usize],
        Part::GeneratorBreaker(number) => rates.generator_breakers[(number - 1) as usize],
        Part::BusBreaker(number) => rates.bus_breakers[(number - 1) as usize],
    };
    held.rate
}

// "The chance is the first as given, or 1.0 divided by the hours." An unrated part has none: not a number, which no served answer shows.
pub fn chance_of(rate: Rate) -> f64
    ensures { result ≡ chance_of rate }
{
    match rate {
        Rate::Chance(chance) => chance,
        Rate::MeanHours(hours) => 1.0 / hours,
        Rate::Unrated => 0.0 / 0.0,
    }
}

// Whether a part is unrated.
#[tactic(auto, unfolding(model::specs::Exposure::is_unrated))]
pub fn is_unrated(rate: Rate) -> bool
    ensures { result ≡ is_unrated rate }
{
    matches!(rate, Rate::Unrated)
}

// 15: "a chance not from 0 to 1". No comparison holds of a NaN, so one is refused.
#[tactic(auto, using(crate::specs::Tests::chance_first, crate::specs::Tests::chance_second))]
fn chance_outside(chance: f64) -> bool
    ensures { result ≡ not (le float0 chance && le chance float1) }
{
    !(0.0 <= chance && chance <= 1.0)
}

// 15: "hours not finite or below 1". 1.0 / 0.0 is infinity, and no comparison holds of a NaN, so that both are refused.
#[tactic(auto, using(crate::specs::Tests::hours_first, crate::specs::Tests::hours_second))]
fn hours_outside(hours: f64) -> bool
    ensures { result ≡ not (finite hours) || lt hours float1 }
{
    !(hours < 1.0 / 0.0) || hours < 1.0
}

// 15 of a part's rate.
#[tactic(auto, unfolding(model::specs::Exposure::rate_outside))]
fn rate_outside(part: PartRate) -> bool
    ensures { result ≡ rate_outside part.rate }
{
    match part.rate {
        Rate::Chance(chance) => chance_outside(chance),
        Rate::MeanHours(hours) => hours_outside(hours),
        Rate::Unrated => false,
    }
}

// 15 of some part's.
fn any_outside(parts: &[PartRate]) -> bool
    ensures { result ≡ any_outside parts.now }
{
    parts.iter().any(|part| rate_outside(*part))
}

// 15 "among the ring's parts", in a listed set or not.
pub fn some_outside(n: usize, rates: Rates) -> bool
    requires { n ≤ largest }
    ensures { result ≡ some_outside n rates }
{
    any_outside(&rates.generators[..n])
        || any_outside(&rates.generator_breakers[..n])
        || any_outside(&rates.bus_breakers[..n])
}

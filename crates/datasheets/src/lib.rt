// The rates of parts (document 02, Note 8: "as its data sheet gives it") in the bytes of a stored case. Places are indices from 0.
#![tactic(auto)]

ghost use Rattle.std.specs.Prelude.{◌≡◌, ◌+◌, ◌≤◌, length};
ghost use Rattle.std.specs.Float.{binary64};
ghost use Rattle.std.specs.Float.Ieee.{of_bits};
ghost use Rattle.datasheets.specs.Rates.{bits_at, float_at, rate_by, rate_at, twenty_at, rates_at};

use model::{PartRate, Rate, Rates};
use std::array;

// A number of eight bytes, low byte first: the bits of a float.
pub fn bits_at(case: &[u8], from: usize) -> u64
    requires { from + 8 ≤ length case.now }
    ensures { result ≡ bits_at case.now from }
{
    u64::from_le_bytes(array::from_fn(|i| case[from + i]))
}

// The float of these bits. Without the sign, those of a NaN are above those of infinity, and which NaN it is says nothing.
fn float_of(bits: u64) -> f64
    ensures { result ≡ of_bits binary64 bits }
{
    if 9218868437227405312 < bits % 9223372036854775808 {
        0.0 / 0.0
    } else {
        f64::from_bits(bits)
    }
}

// A float of eight bytes.
pub fn float_at(case: &[u8], from: usize) -> f64
    requires { from + 8 ≤ length case.now }
    ensures { result ≡ float_at case.now from }
{
    float_of(bits_at(case, from))
}

// A rate by the number of its kind: "a chance per hour, a mean number of hours between failures, or unrated" (document 02, Note 8).
fn rate_by(kind: u8, figure: f64) -> Rate
    ensures { result ≡ rate_by kind figure }
{
    match kind {
        0 => Rate::Chance(figure),
        1 => Rate::MeanHours(figure),
        _ => Rate::Unrated,
    }
}

// A rate of nine bytes: the number of its kind, and its figure.
pub fn rate_at(case: &[u8], from: usize) -> PartRate
    requires { from + 9 ≤ length case.now }
    ensures { result ≡ rate_at case.now from }
{
    PartRate {
        rate: rate_by(case[from], float_at(case, from + 1)),
    }
}

// Twenty rates.
fn twenty_at(case: &[u8], from: usize) -> [PartRate; 20]
    requires { from + 180 ≤ length case.now }
    ensures { result ≡ twenty_at case.now from }
{
    array::from_fn(|i| rate_at(case, from + 9 * i))
}

// The rate of every part.
pub fn rates_at(case: &[u8], from: usize) -> Rates
    requires { from + 540 ≤ length case.now }
    ensures { result ≡ rates_at case.now from }
{
    Rates {
        generators: twenty_at(case, from),
        generator_breakers: twenty_at(case, from + 180),
        bus_breakers: twenty_at(case, from + 360),
    }
}

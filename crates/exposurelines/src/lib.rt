// The chance of a dark hour (document 02, Note 8) as a line of text in a lent buffer: a bus, and its figures or the refusal. An `append_` function
// stores its text from `at` on and answers the place behind it, and tells how far that is at most. The bus is a number, from 1.
#![tactic(auto)]

ghost use Rattle.std.specs.Prelude.{◌≡◌, not, ◌+◌, ◌<◌, ◌≤◌, T, length};
ghost use Rattle.std.specs.Float.Ieee.{is_nan};
ghost use Rattle.model.specs.ExposureText.{hex_digit, hex_digits, exposure_text, answered_text, exposure_line, exposure_room};
ghost use Rattle.model.specs.Laws.Appended.{Appended};
ghost use Rattle.exposurelines.specs.Lines.{spaced_bits};

use heads::append_refused;
use model::{Exposure, ExposureAnswer};
use numbers::{append_large, append_marked};

// A hexadecimal digit: `0` to `9`, then `a` to `f`.
fn hex_digit(digit: u8) -> u8
    requires { digit < 16 }
    ensures { result ≡ hex_digit digit }
{
    if digit < 10 {
        b'0' + digit
    } else {
        b'a' + (digit - 10)
    }
}

// The last `digits` hexadecimal digits of a number: those of its sixteens, then its last. It calls itself once a digit.
fn append_hex(k: u64, digits: usize, out: &mut [u8], at: usize) -> usize
    requires { at + digits ≤ length out.old }
    ensures { Appended (hex_digits digits k) out.old at out.new result }
{
    if digits == 0 {
        return at;
    }
    let last = append_hex(k / 16, digits - 1, out, at);
    out[last] = hex_digit((k % 16) as u8);
    last + 1
}

// The bits of a float, and a space behind them. A NaN's are not defined, and no answer has one.
fn append_bits(x: f64, out: &mut [u8], at: usize) -> usize
    requires { T (not (is_nan x)) × (at + 17 ≤ length out.old) }
    ensures { Appended (spaced_bits x) out.old at out.new result }
{
    let end = append_hex(f64::to_bits(x), 16, out, at);
    out[end] = b' ';
    end + 1
}

// "The answer carries that sum, the largest product and the number of sets."
fn append_figures(figures: Exposure, out: &mut [u8], at: usize) -> usize
    requires { T (not (is_nan figures.sum)) × T (not (is_nan figures.largest)) × (at + 40 ≤ length out.old) }
    ensures text { Appended (exposure_text figures) out.old at out.new result }
    ensures within { result ≤ at + 40 }
{
    let largest = append_bits(figures.sum, out, at);
    let count = append_bits(figures.largest, out, largest);
    let end = append_large(figures.count as usize, out, count);
    out[end] = b'\n';
    end + 1
}

// What is answered: the figures, or the refusal as that of a file.
fn append_answer(answer: ExposureAnswer, out: &mut [u8], at: usize) -> usize
    requires { T (not (is_nan answer.exposure.sum)) × T (not (is_nan answer.exposure.largest)) × (at + 40 ≤ length out.old) }
    ensures text { Appended (answered_text answer.outcome answer.exposure) out.old at out.new result }
    ensures within { result ≤ at + 40 }
{
    match answer.outcome {
        Ok(()) => append_figures(answer.exposure, out, at),
        Err(refusal) => append_refused(words::refusal_number(refusal), out, at),
    }
}

// The line of a bus and its answer.
pub fn append_line(bus: u8, answer: ExposureAnswer, out: &mut [u8], at: usize) -> usize
    requires bus { bus < 100 }
    requires figures { T (not (is_nan answer.exposure.sum)) × T (not (is_nan answer.exposure.largest)) }
    requires room { at + exposure_room ≤ length out.old }
    ensures text { Appended (exposure_line bus answer) out.old at out.new result }
    ensures within { result ≤ at + exposure_room }
{
    out[at] = b'B';
    let answered = append_marked(bus, b' ', out, at + 1);
    append_answer(answer, out, answered)
}

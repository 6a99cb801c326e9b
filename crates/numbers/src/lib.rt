// Decimal numbers. An `append_` function stores its text from `at` on and answers the place behind it.
#![tactic(auto)]

ghost use Rattle.std.specs.Prelude.{◌+◌, ◌<◌, ◌≤◌, length};
ghost use Rattle.model.specs.Text.{decimal};
ghost use Rattle.model.specs.Laws.Appended.{Appended};
ghost use Rattle.numbers.specs.Numbers.{marked};

// A digit, and the byte behind the number that it ends.
pub fn append_digit(digit: u8, mark: u8, out: &mut [u8], at: usize) -> usize
    requires { (digit < 10) × (at + 2 ≤ length out.old) }
    ensures { Appended (marked digit mark) out.old at out.new result }
{
    out[at] = b'0' + digit;
    out[at + 1] = mark;
    at + 2
}

// A number and the byte behind it. Most numbers of buses, generators and parts are below 20: those need no division.
pub fn append_marked(k: u8, mark: u8, out: &mut [u8], at: usize) -> usize
    requires { (k < 100) × (at + 3 ≤ length out.old) }
    ensures { Appended (marked k mark) out.old at out.new result }
{
    if k < 10 {
        return append_digit(k, mark, out, at);
    }
    if k < 20 {
        out[at] = b'1';
        return append_digit(k - 10, mark, out, at + 1);
    }
    out[at] = b'0' + k / 10;
    append_digit(k % 10, mark, out, at + 1)
}

// A number of at most four digits: its last digit is the byte behind its tens.
pub fn append_number(k: usize, out: &mut [u8], at: usize) -> usize
    requires { (k < 10000) × (at + 4 ≤ length out.old) }
    ensures { Appended (decimal k) out.old at out.new result }
{
    let last = b'0' + (k % 10) as u8;
    if k < 10 {
        out[at] = last;
        return at + 1;
    }
    let tens = k / 10;
    if tens < 100 {
        return append_marked(tens as u8, last, out, at);
    }
    let end = append_marked((tens / 10) as u8, b'0' + (tens % 10) as u8, out, at);
    out[end] = last;
    end + 1
}

// A number of at most five digits: the number of its tens, then its last digit.
// kept: beside `append_whole`, since it asks for five bytes of room, not ten; one recursion for both would need a function around it for each.
pub fn append_large(k: usize, out: &mut [u8], at: usize) -> usize
    requires { (k < 100000) × (at + 5 ≤ length out.old) }
    ensures { Appended (decimal k) out.old at out.new result }
{
    if k < 10000 {
        return append_number(k, out, at);
    }
    let end = append_number(k / 10, out, at);
    out[end] = b'0' + (k % 10) as u8;
    end + 1
}

// A number of at most ten digits: the number of its tens, then its last digit. It calls itself at most five times. It also tells how far
// the digits reach at most: a caller that reads its number from an array knows no bound of it.
pub fn append_whole(k: u32, out: &mut [u8], at: usize) -> usize
    requires { at + 10 ≤ length out.old }
    ensures text { Appended (decimal k) out.old at out.new result }
    ensures within { result ≤ at + 10 }
{
    if k < 100000 {
        return append_large(k as usize, out, at);
    }
    let last = append_whole(k / 10, out, at);
    out[last] = b'0' + (k % 10) as u8;
    last + 1
}

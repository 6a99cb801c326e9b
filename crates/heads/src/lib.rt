// The first line of a printed run (document 01, "The printed run") in the front of a lent buffer: a header or a refusal. An `append_`
// function stores its text from `at` on and answers the place behind it.
#![tactic(auto)]

ghost use Rattle.std.specs.Prelude.{◌≡◌, ◌++◌, ◌+◌, ◌<◌, ◌≤◌, length};
ghost use Rattle.model.specs.Sheet.{written};
ghost use Rattle.model.specs.Text.{decimal, header as header_text, refused_text, line_room};
ghost use Rattle.model.specs.Laws.Appended.{Appended};

use numbers::append_number;

// A text and a number behind it.
fn append_labelled(text: &[u8], k: usize, out: &mut [u8], at: usize) -> usize
    requires { (k < 10000) × (at + length text.now + 4 ≤ length out.old) }
    ensures { Appended (text.now ++ decimal k) out.old at out.new result }
{
    let number = appending::append(text, out, at);
    append_number(k, out, number)
}

// "a header"
pub fn header(n: u8, m: usize, out: &mut [u8]) -> usize
    requires { (m < 10000) × (line_room ≤ length out.old) }
    ensures bytes { out.new ≡ written (header_text n m) out.old }
    ensures end { result ≡ length (header_text n m) }
{
    let reports = append_labelled(b"ring ", n as usize, out, 0);
    let end = append_labelled(b" reports ", m, out, reports);
    out[end] = b'\n';
    end + 1
}

// The word and the number of a refusal, and a line feed behind them, in any text. It tells how far they reach at most.
pub fn append_refused(number: u8, out: &mut [u8], at: usize) -> usize
    requires { at + 13 ≤ length out.old }
    ensures text { Appended (refused_text number) out.old at out.new result }
    ensures within { result ≤ at + 13 }
{
    let end = append_labelled(b"refused ", number as usize, out, at);
    out[end] = b'\n';
    end + 1
}

// "For a refused file it prints only `refused` and the number"
pub fn refused_text(k: u8, out: &mut [u8]) -> usize
    requires { line_room ≤ length out.old }
    ensures bytes { out.new ≡ written (refused_text k) out.old }
    ensures end { result ≡ length (refused_text k) }
{
    append_refused(k, out, 0)
}

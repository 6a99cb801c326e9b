// The figures of a load (document 02, Note 5) as a line of text in the front of a lent buffer: "every generator's watts, .. and the watts
// on dark buses". An `append_` function stores its text from `at` on and answers the place behind it, and tells how far that is at most:
// no bound is known of the watts in a load.
#![tactic(auto)]

ghost use Rattle.std.specs.Prelude.{◌≡◌, map, ◌+◌, ◌*◌, ◌<◌, ◌≤◌, length};
ghost use Rattle.model.specs.Lists.{below};
ghost use Rattle.model.specs.Sheet.{written};
ghost use Rattle.model.specs.Text.{joined};
ghost use Rattle.model.specs.LoadText.{watts_text, figures_line, figures_room};
ghost use Rattle.model.specs.Laws.Appended.{Appended};
ghost use Rattle.loadlines.specs.Figures.{marked_watts, dark_text};

use model::Load;
use numbers::{append_marked, append_whole};

// A generator's watts and a space behind them, as `G2 1200 `, by the generator's number, from 1.
fn append_watts(number: u8, watts: u32, out: &mut [u8], at: usize) -> usize
    requires { (number < 100) × (at + 15 ≤ length out.old) }
    ensures text { Appended (marked_watts number watts) out.old at out.new result }
    ensures within { result ≤ at + 15 }
{
    out[at] = b'G';
    let figure = append_marked(number, b' ', out, at + 1);
    let end = append_whole(watts, out, figure);
    out[end] = b' ';
    end + 1
}

// The watts of the first `n` generators.
fn append_generators(n: usize, load: Load, out: &mut [u8], at: usize) -> usize
    requires { (n ≤ 20) × (at + 15 * n ≤ length out.old) }
    ensures text { Appended (joined (map (watts_text load) (below n))) out.old at out.new result }
    ensures within { result ≤ at + 15 * n }
{
    let mut end = at;
    for (g, watts) in load.watts[..n].iter().enumerate() {
        end = append_watts(g as u8 + 1, *watts, out, end);
    }
    end
}

// The watts on dark buses, as `dark 1200`, and the line feed behind them.
fn append_dark(watts: u32, out: &mut [u8], at: usize) -> usize
    requires { at + 16 ≤ length out.old }
    ensures text { Appended (dark_text watts) out.old at out.new result }
    ensures within { result ≤ at + 16 }
{
    let figure = appending::append(b"dark ", out, at);
    let end = append_whole(watts, out, figure);
    out[end] = b'\n';
    end + 1
}

// "every generator's watts, .. and the watts on dark buses": the line of a load on a ring of n, and its length.
pub fn figures_line(n: u8, load: Load, out: &mut [u8]) -> usize
    requires { (n ≤ 20) × (figures_room ≤ length out.old) }
    ensures bytes { out.new ≡ written (figures_line n load) out.old }
    ensures end { result ≡ length (figures_line n load) }
{
    let dark = append_generators(n as usize, load, out, 0);
    let watts = load.dark_watts;
    append_dark(watts, out, dark)
}

// "each bus with its source and way". An `append_` function stores its text from `at` on and answers the place behind it.
#![tactic(auto)]

ghost use Rattle.std.specs.Prelude.{map, ◌+◌, ◌*◌, ◌<◌, ◌≤◌, length};
ghost use Rattle.model.specs.Lists.{below};
ghost use Rattle.model.specs.Text.{choice_text, bus_text};
ghost use Rattle.model.specs.Laws.Appended.{Appended};
ghost use Rattle.model.specs.Laws.Spaced.{behind_spaces};
ghost use Rattle.buses.specs.Buses.{bus_behind_space, Named, AllNamed};

use model::{BusChoice, Choice};
use numbers::{append_digit, append_marked};

// "its source and way (`o` own, `h` high, `l` low; `-` alone when dark ..)"
fn append_choice(choice: Choice, out: &mut [u8], at: usize) -> usize
    requires { Named choice × (at + 4 ≤ length out.old) }
    ensures { Appended (choice_text choice) out.old at out.new result }
{
    let (source, letter) = match choice {
        Choice::Dark => {
            out[at] = b'-';
            return at + 1;
        }
        Choice::Own(g) => (g, b'o'),
        Choice::High(g) => (g, b'h'),
        Choice::Low(g) => (g, b'l'),
    };
    out[at] = b'G';
    append_marked(source, letter, out, at + 1)
}

// A bus behind a space, as ` B3=G2h`. Each branch goes on by itself: in the first the choice's place is a fixed distance from `at`,
// which saves computing it, bus by bus.
fn append_bus(bus: u8, choice: Choice, out: &mut [u8], at: usize) -> usize
    requires { (bus < 100) × Named choice × (at + 9 ≤ length out.old) }
    ensures { Appended (bus_behind_space bus choice) out.old at out.new result }
{
    out[at] = b' ';
    out[at + 1] = b'B';
    if bus < 10 {
        let end = append_digit(bus, b'=', out, at + 2);
        return append_choice(choice, out, end);
    }
    let end = append_marked(bus, b'=', out, at + 2);
    append_choice(choice, out, end)
}

// "each bus with its source and way"
pub fn append_buses(n: usize, choices: [BusChoice; 20], out: &mut [u8], at: usize) -> usize
    requires { (n ≤ 20) × AllNamed n choices × (at + 9 * n ≤ length out.old) }
    ensures { Appended (behind_spaces (map (bus_text choices) (below n))) out.old at out.new result }
{
    let mut end = at;
    for (b, bus) in choices[..n].iter().enumerate() {
        end = append_bus(b as u8 + 1, bus.choice, out, end);
    }
    end
}

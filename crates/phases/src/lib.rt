// The opening phase (document 01: first wave): the codes of the parts whose commands change to off or open, in rising order; and how many
// parts each phase has. Parts are indices from 0 here.
#![tactic(auto)]

ghost use Rattle.std.specs.Prelude.{◌≡◌, ◌+◌, ◌≤◌, length};
ghost use Rattle.model.specs.Lists.{below, keep};
ghost use Rattle.model.specs.Reports.{commands_of};
ghost use Rattle.model.specs.Laws.Appended.{Appended};
ghost use Rattle.model.specs.Laws.Sheet.{closing_by_code};
ghost use Rattle.phases.specs.Codes.{opens, closes, codes, opening_codes};

use model::Commands;

// How many parts each phase has.
#[derive(Clone, Copy)]
pub struct Counts {
    pub opening: usize,
    pub closing: usize,
}

// Appends the codes of one kind of part that open, and counts those that close: `base` is the code of the kind's first part.
fn collect(
    n: usize,
    old: &[bool; 20],
    new: &[bool; 20],
    base: u8,
    opening: &mut [u8; 60],
    counts: Counts,
) -> Counts
    requires size { n ≤ 20 }
    requires kind { base ≤ 64 }
    requires opening_fits { counts.opening + n ≤ 60 }
    requires closing_fits { counts.closing + n ≤ 60 }
    ensures opening_phase { Appended (codes (opens old.now new.now) base n)
        opening.old counts.opening opening.new result.opening }
    ensures closing_count { result.closing ≡ counts.closing + length (keep (closes old.now new.now) (below n)) }
    ensures most { (result.opening ≤ counts.opening + n) × (result.closing ≤ counts.closing + n) }
{
    // Most reports change no command.
    if old == new {
        return counts;
    }
    let mut opened = counts.opening;
    let mut closed = counts.closing;
    for (i, (was, command)) in old[..n].iter().zip(&new[..n]).enumerate() {
        if was != command {
            if *command {
                closed += 1;
            } else {
                opening[opened] = base + i as u8;
                opened += 1;
            }
        }
    }
    Counts {
        opening: opened,
        closing: closed,
    }
}

// The codes of the opening phase, kind by kind, and how many parts each phase has.
pub fn opening(n: usize, old: Commands, new: Commands, opening: &mut [u8; 60]) -> Counts
    requires { n ≤ 20 }
    ensures opening_phase { Appended (opening_codes n old new) opening.old 0 opening.new result.opening }
    ensures closing_count { result.closing ≡ length (closing_by_code n (commands_of old) (commands_of new)) }
{
    let none = Counts {
        opening: 0,
        closing: 0,
    };
    let generators = collect(n, &old.generators, &new.generators, 0, opening, none);
    let breakers = collect(
        n,
        &old.generator_breakers,
        &new.generator_breakers,
        32,
        opening,
        generators,
    );
    collect(
        n,
        &old.bus_breakers,
        &new.bus_breakers,
        64,
        opening,
        breakers,
    )
}

// Whether a bus is dark, and how many faults it takes at least to leave it dark: by walking out from it to both sides, as far as the first
// generator that may feed. Buses and breakers are indices from 0.
#![tactic(auto)]

ghost use Rattle.std.specs.Prelude.{◌≡◌, ◌≤◌, ◌<◌};
ghost use Rattle.model.specs.Lists.{is_none};
ghost use Rattle.model.specs.Choosing.{plan};
ghost use Rattle.model.specs.Reports.{health_of};
ghost use Rattle.outages.specs.Sides.{Met, Within, side_paths};
ghost use Rattle.outages.specs.Least.{Least};

use model::{Health, STUCK_OPEN};

// How many steps it is from bus b on one side to the first other bus whose generator may feed, over breakers that are not stuck open.
fn steps_to_generator(n: usize, health: Health, b: usize, rising: bool) -> Option<usize>
    requires { (b < n) × (n ≤ 20) }
    ensures { Met n (health_of health) rising b result }
{
    let mut k = b;
    for steps in 1..n {
        let i = walks::breaker_beside(n, k, rising);
        if health.bus_breakers[i] == STUCK_OPEN {
            return None;
        }
        k = walks::bus_beside(n, k, rising);
        if sources::may_feed(
            health.generators[k],
            health.locked[k],
            health.generator_breakers[k],
        ) {
            return Some(steps);
        }
    }
    None
}

// How many paths lead to a bus from its two sides that have no part in common. Two that together are as long as the ring meet at one
// generator.
fn side_paths(n: usize, rise: Option<usize>, fall: Option<usize>) -> usize
    requires { Within n rise × Within n fall × (n ≤ 20) }
    ensures { (result ≡ side_paths n rise fall) × (result ≤ 2) }
{
    match (rise, fall) {
        (Some(up), Some(down)) if up + down < n => 2,
        (None, None) => 0,
        _ => 1,
    }
}

// How many faults it takes at least to leave bus b dark: one for each path to it, of its own generator and from both sides, that has no
// part in common with the others; 0 exactly where it is dark.
pub fn least_faults(n: usize, health: Health, b: usize) -> usize
    requires { (b < n) × (n ≤ 20) }
    ensures { Least n (health_of health) b result }
{
    let rise = steps_to_generator(n, health, b, true);
    let fall = steps_to_generator(n, health, b, false);
    let sides = side_paths(n, rise, fall);
    if sources::may_feed(
        health.generators[b],
        health.locked[b],
        health.generator_breakers[b],
    ) {
        return sides + 1;
    }
    sides
}

// "A bus with none is dark.": whether choosing gives bus b no path.
pub fn is_dark(n: usize, health: Health, b: usize) -> bool
    requires { (b < n) × (n ≤ 20) }
    ensures { result ≡ is_none (plan n (health_of health) b) }
{
    least_faults(n, health, b) == 0
}

// Whether a generator feeds a bus, by the health and the commands of the parts (document 01, "The plant").
// Buses, generators and breakers are indices from 0 here, the paper's numbers less 1.
#![tactic(auto)]

ghost use Rattle.std.specs.Prelude.{◌≡◌, ◌&&◌, not, ◌≤◌, ◌<◌};
ghost use Rattle.model.specs.Lists.{all_of};
ghost use Rattle.model.specs.Plant.{fit, closed, up, arc, connected as connected_buses, bus_breaker_closed, feeds as feeds_of};
ghost use Rattle.model.specs.Reports.{health_of, commands_of};

use model::{Commands, Health, STUCK_CLOSED, STUCK_OPEN};

// "A generator is running when it is fit and ordered on"; fit is "not stuck off and not locked" (document 02, Note 7).
fn is_running(health: u8, locked: bool, command: bool) -> bool
    ensures { result ≡ (fit health && not locked) && command }
{
    let runs = components::fit_generator(health, locked);
    runs && command
}

// "A fit part does what it was last ordered; a stuck part ignores orders.": whether a breaker is closed is judged here
// alone.
fn is_closed(health: u8, command: bool) -> bool
    ensures { result ≡ closed health command }
{
    health == STUCK_CLOSED || (health != STUCK_OPEN && command)
}

// Whether every bus breaker met from bus a to bus b through rising bus numbers is closed.
fn arc_closed(n: usize, health: Health, commands: Commands, a: usize, b: usize) -> bool
    requires from { a < n }
    requires to { b < n }
    requires size { n ≤ 20 }
    ensures { result ≡ all_of (bus_breaker_closed (health_of health) (commands_of commands)) (arc n a (up n a b)) }
{
    let mut i = a;
    while i != b {
        if !is_closed(health.bus_breakers[i], commands.bus_breakers[i]) {
            return false;
        }
        i = components::next(n, i);
    }
    true
}

// "Two buses are joined when closed bus breakers lead from one to the other; a bus is joined to itself."
#[tactic(auto, unfolding(model::specs::Plant::connected))]
fn connected(n: usize, health: Health, commands: Commands, a: usize, b: usize) -> bool
    requires from { a < n }
    requires to { b < n }
    requires size { n ≤ 20 }
    ensures { result ≡ connected_buses n (bus_breaker_closed (health_of health) (commands_of commands)) a b }
{
    arc_closed(n, health, commands, a, b) || arc_closed(n, health, commands, b, a)
}

// "it feeds every bus joined to its own while its generator breaker is closed": whether generator g feeds bus b.
#[tactic(auto, unfolding(model::specs::Plant::feeds, model::specs::Reports::health_of, model::specs::Reports::commands_of))]
pub fn feeds_bus(n: usize, health: Health, commands: Commands, b: usize, g: usize) -> bool
    requires bus { b < n }
    requires generator { g < n }
    requires size { n ≤ 20 }
    ensures { result ≡ feeds_of n (health_of health) (commands_of commands) b g }
{
    is_running(
        health.generators[g],
        health.locked[g],
        commands.generators[g],
    ) && (is_closed(health.generator_breakers[g], commands.generator_breakers[g])
        && connected(n, health, commands, g, b))
}

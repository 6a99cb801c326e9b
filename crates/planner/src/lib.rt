// The plan for a ring's health: each bus's choice and each part's command (document 01, "Choosing").
// Buses are indices from 0 here; a choice has a generator's number, from 1.
#![tactic(auto)]

ghost use Rattle.std.specs.Prelude.{◌≡◌, ◌≤◌};
ghost use Rattle.model.specs.Values.{choice_values};
ghost use Rattle.model.specs.Choosing.{commands, plan_values, choices};
ghost use Rattle.model.specs.Reports.{health_of, command_places};

use model::{BusChoice, Choice, Commands, Health};

mod progress;

use progress::Progress;

// What a plan gives: each bus's choice and each part's command.
#[derive(Clone, Copy)]
pub struct Planned {
    pub choices: [BusChoice; 20],
    pub commands: Commands,
}

// The plan of a ring: "Buses are served in number order." Buses above n are dark, and parts above n off or open.
// An inner call: it requires that n is from 3 to 20.
pub fn plan(n: u8, health: Health) -> Planned
    requires { (3 ≤ n) × (n ≤ 20) }
    ensures chosen { result.choices ≡ choices n (health_of health) }
    ensures commanded { result.commands ≡ command_places (commands n (health_of health)) }
    ensures values { choice_values result.choices ≡ plan_values n (health_of health) }
{
    let size = n as usize;
    let table = sources::table();
    let usable = sources::usable_generators(health);
    let dark = BusChoice {
        choice: Choice::Dark,
    };
    let mut choices = [dark; 20];
    let mut progress = Progress::new();
    for b in 0..size {
        let choice = progress.serve(size, &table, health, &usable, b);
        choices[b] = BusChoice { choice };
    }
    let generators = progress.generators;
    // A path has its generator and that generator's breaker.
    let generator_breakers = generators;
    let commands = Commands {
        generators,
        generator_breakers,
        bus_breakers: progress.closed,
    };
    Planned { choices, commands }
}

// The standing commands of a ring and its locks, for refusal 9. Places of arrays are indices from 0.
#![tactic(auto)]

ghost use Rattle.std.specs.Prelude.{◌≡◌, not, ◌||◌, ◌≤◌};
ghost use Rattle.model.specs.Plant.{fit};
ghost use Rattle.model.specs.Reports.{health_of, commands_of};
ghost use Rattle.model.specs.Refusals.{active_above, locked_above};
ghost use Rattle.standing.specs.Standing.{any_active, any_differ};

use model::{Commands, FIT, Health};

// "not fit or not ordered off or open"
fn is_active(health: u8, command: bool) -> bool
    ensures { result ≡ not (fit health) || command }
{
    health != FIT || command
}

// .. of a part of a kind, by the healths and the commands of its parts.
fn any_active(healths: &[u8], commands: &[bool]) -> bool
    ensures { result ≡ any_active healths.now commands.now }
{
    healths
        .iter()
        .zip(commands)
        .any(|(health, command)| is_active(*health, *command))
}

// 9: "a part above n is not fit or not ordered off or open"
pub fn active_above(n: usize, health: Health, commands: Commands) -> bool
    requires { n ≤ 20 }
    ensures { result ≡ active_above n (health_of health) (commands_of commands) }
{
    any_active(&health.generators[n..], &commands.generators[n..])
        || any_active(
            &health.generator_breakers[n..],
            &commands.generator_breakers[n..],
        )
        || any_active(&health.bus_breakers[n..], &commands.bus_breakers[n..])
}

// 9: "A part above n must be unlocked" (document 02, Note 7)
pub fn locked_above(n: usize, health: Health) -> bool
    requires { n ≤ 20 }
    ensures { result ≡ locked_above n (health_of health) }
{
    health.locked[n..].iter().any(|locked| *locked)
}

// Whether a part has another command in one than in the other.
pub fn differ(standing: Commands, planned: Commands) -> bool
    ensures { result ≡ any_differ (commands_of standing) (commands_of planned) }
{
    standing != planned
}

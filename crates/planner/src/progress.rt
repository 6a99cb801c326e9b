// Serving the buses of a ring: "Buses are served in number order." Kept from bus to bus: the owner of each bus, and the generators and
// bus breakers on the paths chosen so far.
// Buses and generators are indices from 0; an owner and a choice have a generator's number, from 1.
ghost use Rattle.std.specs.Prelude.{◌≡◌, false, ◌+◌, ◌≤◌, ◌<◌, replicate};
ghost use Rattle.std.proofs.Math.Option.{some};
ghost use Rattle.model.specs.Priority.{source_table};
ghost use Rattle.model.specs.Choosing.{choice_of, plan as planned};
ghost use Rattle.model.specs.Reports.{places, health_of};
ghost use Rattle.theory.specs.Proofs.Paths.{path_to};
ghost use Rattle.sources.specs.Sources.{may_feed};
ghost use Rattle.walks.specs.Arrays.{at};
ghost use Rattle.planner.specs.Progress.{kept, served, taken};

use model::{Choice, Health};
use paths::Path;

// What a path is called.
fn named(n: usize, b: usize, path: Path) -> Choice
    requires { (b < n) × (path.source < n) × (n ≤ 20) }
    ensures { result ≡ choice_of n (some (path_to b path.source path.rising)) }
{
    let Path { source: g, rising } = path;
    let number = sources::number_of(g);
    if g == b {
        return Choice::Own(number);
    }
    if rising == paths::high_rises(n, b, g) {
        return Choice::High(number);
    }
    Choice::Low(number)
}

// What is kept, changed in place, since each bus changes little of it.
#[derive(Drop)]
pub struct Progress {
    // By bus, the number of the chosen generator that it is connected to, or 0.
    pub owners: [u8; 20],
    // The generators on the paths chosen so far. A path's generator breaker goes with its generator.
    pub generators: [bool; 20],
    // The bus breakers on those paths.
    pub closed: [bool; 20],
}

impl Progress {
    ghost use Rattle.planner.specs.Kept.{kept_in};

    // Before the first bus.
    pub fn new() -> Progress
        ensures { kept_in result ≡ kept (replicate 20 0) (replicate 20 false) (replicate 20 false) }
    {
        Progress {
            owners: [0; 20],
            generators: [false; 20],
            closed: [false; 20],
        }
    }

    // Takes a path: "Chosen generators are ordered on and breakers on chosen ways closed .. stuck ones too", and the walks out from its
    // bus to both sides give its generator every bus that is now connected to it.
    fn take(&mut self, n: usize, breakers: &[u8; 20], b: usize, path: Path)
        requires { (b < n) × (path.source < n) × (n ≤ 20) }
        ensures { kept_in self.new ≡ taken n (at breakers.now) (kept_in self.old) (path_to b path.source path.rising) }
    {
        let Path { source: g, rising } = path;
        self.generators[g] = true;
        let span = paths::span_of(n, b, g, rising);
        walks::close(n, &mut self.closed, g, rising, span.steps);
        let number = sources::number_of(g);
        walks::spread(n, breakers, &self.closed, &mut self.owners, b, number, true);
        walks::spread(
            n,
            breakers,
            &self.closed,
            &mut self.owners,
            b,
            number,
            false,
        );
    }

    // Serves bus b, whose sources are read from its row of the table: what is kept of the buses before it becomes what is kept with it.
    pub fn serve(
        &mut self,
        n: usize,
        table: &[u8],
        health: Health,
        usable: &[bool; 20],
        b: usize,
    ) -> Choice
        requires size { (b < n) × (3 ≤ n) × (n ≤ 20) }
        requires table { table.now ≡ source_table }
        requires fed { usable.now ≡ places (may_feed (health_of health)) }
        requires before { kept_in self.old ≡ served n (health_of health) b }
        ensures chosen { result ≡ choice_of n (planned n (health_of health) b) }
        ensures after { kept_in self.new ≡ served n (health_of health) (b + 1) }
    {
        let breakers = health.bus_breakers;
        let start = sources::row_start(n, b);
        match paths::search(
            n,
            &table[start..start + n],
            usable,
            &breakers,
            &self.owners,
            b,
        ) {
            None => Choice::Dark,
            Some(path) => {
                self.take(n, &breakers, b, path);
                named(n, b, path)
            }
        }
    }
}

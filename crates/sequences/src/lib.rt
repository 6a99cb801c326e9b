// The closing phase (document 01: second wave; document 02, Note 4): the codes of the parts that close, outward from their sources. "The
// second wave goes through buses in number order and each chosen way in that sequence, a part only where it first comes."
// Buses, generators and bus breakers are indices from 0; a choice has a generator's number, from 1.
#![tactic(auto)]

ghost use Rattle.std.specs.Prelude.{◌≡◌, [], ◌∷◌, map, ◌≤◌, ◌<◌, length};
ghost use Rattle.model.specs.Values.{part_code};
ghost use Rattle.model.specs.Priority.{path_parts};
ghost use Rattle.model.specs.Sheet.{closing as closing_phase};
ghost use Rattle.model.specs.Reports.{commands_of};
ghost use Rattle.model.specs.Laws.Appended.{Appended};
ghost use Rattle.model.specs.Laws.Choosing.{Inside, AllInside};
ghost use Rattle.theory.specs.Proofs.Paths.{path_to};
ghost use Rattle.walks.specs.Walk.{outward};
ghost use Rattle.paths.specs.Search.{path_found};
ghost use Rattle.sequences.specs.Marks.{Holds};
ghost use Rattle.sequences.specs.Outward.{named_path, named_paths, breaker_codes, path_codes};

use model::{BusChoice, Choice, Commands};
use paths::Path;
use walks::Outward;

// By part code, 0 to 83, the parts to be passed over: at first those that stand commanded on or closed, then those listed too.
fn commanded(commands: Commands) -> [bool; 84]
    ensures { Holds result (commands_of commands) }
{
    let mut passed = [false; 84];
    passed[..20].copy_from_slice(&commands.generators);
    passed[32..52].copy_from_slice(&commands.generator_breakers);
    passed[64..84].copy_from_slice(&commands.bus_breakers);
    passed
}

// The path that a choice names.
fn named(n: usize, b: usize, choice: Choice) -> Option<Path>
    requires { (b < n) × (n ≤ 20) × Inside n choice }
    ensures { path_found b result ≡ named_path n b choice }
{
    match choice {
        Choice::Dark => None,
        Choice::Own(number) => Some(Path {
            source: number as usize - 1,
            rising: true,
        }),
        Choice::High(number) => {
            let g = number as usize - 1;
            let rising = paths::high_rises(n, b, g);
            Some(Path { source: g, rising })
        }
        Choice::Low(number) => {
            let g = number as usize - 1;
            let rising = !paths::high_rises(n, b, g);
            Some(Path { source: g, rising })
        }
    }
}

// What is listed: by part code, 0 to 83, the parts to be passed over; and the codes, up to the place behind the last.
#[derive(Drop)]
struct Listing {
    passed: [bool; 84],
    codes: [u8; 60],
    end: usize,
}

impl Listing {
    ghost use Rattle.sequences.specs.Listing.{ListedIn, HasRoom};

    // Lists a part unless it is to be passed over: "a part only where it first comes".
    fn list_part(&mut self, code: usize)
        requires named { code < 84 }
        requires room { HasRoom (code ∷ []) self.old }
        ensures { ListedIn (code ∷ []) self.old self.new }
    {
        if self.passed[code] {
            return;
        }
        self.passed[code] = true;
        self.codes[self.end] = code as u8;
        self.end += 1;
    }

    // Lists the bus breakers of a path, "from the generator's bus outward".
    fn list_breakers(&mut self, n: usize, g: usize, rising: bool, steps: usize)
        requires ring { (g < n) × (n ≤ 20) }
        requires room { HasRoom (breaker_codes (outward n rising g steps)) self.old }
        ensures { ListedIn (breaker_codes (outward n rising g steps)) self.old self.new }
    {
        for i in Outward::new(n, g, rising, steps) {
            self.list_part(64 + i);
        }
    }

    // Lists the parts of a path: "generator, generator breaker, then bus breakers from the generator's bus outward".
    fn list_path(&mut self, n: usize, b: usize, path: Path)
        requires ring { (b < n) × (path.source < n) × (n ≤ 20) }
        requires room { HasRoom (map part_code (path_parts n (path_to b path.source path.rising))) self.old }
        ensures { ListedIn (map part_code (path_parts n (path_to b path.source path.rising))) self.old self.new }
    {
        let Path { source: g, rising } = path;
        self.list_part(g);
        self.list_part(32 + g);
        let span = paths::span_of(n, b, g, rising);
        self.list_breakers(n, g, rising, span.steps);
    }

    // Lists the parts of a bus's path, none where it is dark.
    fn list_bus(&mut self, n: usize, b: usize, choice: Choice)
        requires ring { (b < n) × (n ≤ 20) × Inside n choice }
        requires room { HasRoom (path_codes n (named_path n b choice)) self.old }
        ensures { ListedIn (path_codes n (named_path n b choice)) self.old self.new }
    {
        if let Some(path) = named(n, b, choice) {
            self.list_path(n, b, path);
        }
    }
}

// Stores the `count` codes of the closing phase, by the commands that stand and each bus's choice.
pub fn closing(
    n: usize,
    old: Commands,
    choices: [BusChoice; 20],
    count: usize,
    codes: &mut [u8; 60],
)
    requires size { n ≤ 20 }
    requires named { AllInside n choices }
    requires counted { count ≡ length (closing_phase n (commands_of old) (named_paths n choices)) }
    requires fits { count ≤ 60 }
    ensures { Appended (map part_code (closing_phase n (commands_of old) (named_paths n choices))) codes.old 0 codes.new count }
{
    // Most reports close nothing.
    if count == 0 {
        return;
    }
    let mut listing = Listing {
        passed: commanded(old),
        codes: *codes,
        end: 0,
    };
    for b in 0..n {
        // What is listed is a prefix of the phase: when it is as long, it is the phase.
        if listing.end == count {
            break;
        }
        let bus = choices[b];
        listing.list_bus(n, b, bus.choice);
    }
    *codes = listing.codes;
}

// The search for a bus's path: "The search over generators and their two ways ends at the first permitted way."
// Buses, generators and bus breakers are indices from 0; an owner is a generator's number, from 1, or 0 where there is none.
#![tactic(auto)]

ghost use Rattle.std.specs.Prelude.{◌≡◌, ◌-◌, ◌≤◌, ◌<◌, length, get_or};
ghost use Rattle.model.specs.Lists.{first};
ghost use Rattle.model.specs.Priority.{source_row, high_rises, paths};
ghost use Rattle.theory.specs.Proofs.Paths.{path_to};
ghost use Rattle.walks.specs.Arrays.{at};
ghost use Rattle.paths.specs.Owner.{clear_path};
ghost use Rattle.paths.specs.Search.{passes_by, candidate_by, path_found, span_of};

// A path to a bus: its generator, and whether it runs through rising bus numbers.
#[derive(Clone, Copy, PartialEq, Eq)]
pub struct Path {
    pub source: usize,
    pub rising: bool,
}

// The bus breakers of a path: the bus from which they rise, and how many there are.
#[derive(Clone, Copy)]
pub struct Span {
    pub from: usize,
    pub steps: usize,
}

// Whether the high path from generator g to bus b runs through rising bus numbers: "The shorter is high, the other low. Of
// two equally long the one through rising bus numbers (B1 after Bn) is high".
pub fn high_rises(n: usize, b: usize, g: usize) -> bool
    requires { (b < n) × (g < n) × (n ≤ 20) }
    ensures { result ≡ high_rises n g b }
{
    walks::up(n, g, b) <= walks::up(n, b, g)
}

// The span of a path from generator g to bus b: "the bus breakers from its own bus to the bus fed, and none beyond".
pub fn span_of(n: usize, b: usize, g: usize, rising: bool) -> Span
    requires { (b < n) × (g < n) × (n ≤ 20) }
    ensures { result ≡ span_of n (path_to b g rising) }
{
    if rising {
        return Span {
            from: g,
            steps: walks::up(n, g, b),
        };
    }
    Span {
        from: b,
        steps: walks::up(n, b, g),
    }
}

// Whether a path to bus b from the generator at place r of its row can be permitted, by what is known before its breakers are walked.
fn candidate(row: &[u8], usable: &[bool; 20], owners: &[u8; 20], b: usize, r: usize) -> bool
    requires bus { b < 20 }
    requires place { r < length row.now }
    requires number { (1 ≤ get_or row.now r 0) × (get_or row.now r 0 ≤ 20) }
    ensures { result ≡ candidate_by usable.now owners.now b (get_or row.now r 0 - 1) }
{
    let g = sources::source(row, r);
    if usable[g] {
        let number = sources::number_of(g);
        if walks::free(owners[b], number) {
            return walks::free(owners[g], number);
        }
    }
    false
}

// Whether a path to bus b from generator g, a candidate, is permitted: the walk along it is clear.
fn permitted(
    n: usize,
    breakers: &[u8; 20],
    owners: &[u8; 20],
    b: usize,
    g: usize,
    rising: bool,
) -> bool
    requires { (b < n) × (g < n) × (n ≤ 20) }
    ensures { result ≡ clear_path n (at breakers.now) (at owners.now) (path_to b g rising) }
{
    let span = span_of(n, b, g, rising);
    walks::clear(
        n,
        breakers,
        owners,
        sources::number_of(g),
        span.from,
        span.steps,
    )
}

// The first permitted path of bus b: its sources by priority, which its row of the table holds, and of each the high path before the
// low one. "From Gk, bus Bk has one way, its own", "From another generator there are two ways round the ring": an own path has no
// breaker to walk over, whichever way it is tried, so the first try decides.
pub fn search(
    n: usize,
    row: &[u8],
    usable: &[bool; 20],
    breakers: &[u8; 20],
    owners: &[u8; 20],
    b: usize,
) -> Option<Path>
    requires size { (b < n) × (3 ≤ n) × (n ≤ 20) }
    requires row { row.now ≡ source_row n b }
    ensures { path_found b result ≡ first (passes_by n usable.now breakers.now owners.now) (paths n b) }
{
    let mut found = None;
    'sources: for r in 0..n {
        if candidate(row, usable, owners, b, r) {
            let g = sources::source(row, r);
            let high = high_rises(n, b, g);
            'paths: for rising in [high, !high] {
                if permitted(n, breakers, owners, b, g, rising) {
                    found = Some(Path { source: g, rising });
                    break 'sources;
                }
            }
        }
    }
    found
}

// Whether two rings are the same, for the programs that run stored cases.
#![tactic(auto)]

ghost use Rattle.std.specs.Prelude.{◌≡◌, true};

use model::Ring;

// Whether two rings are the same: their n, the health of every part with "the lock beside the health" (document 02, Note 7), and the commands.
pub fn same_ring(ours: Ring, theirs: Ring) -> bool
    ensures { result ≡ true → ours ≡ theirs }
{
    ours == theirs
}

// Bytes stored in a lent buffer, one after the other: what the sheet and the printed run share. Places are indices from 0.
#![tactic(auto)]

ghost use Rattle.std.specs.Prelude.{◌+◌, ◌≤◌, length};
ghost use Rattle.model.specs.Laws.Appended.{Appended};

// Stores all bytes from `at` on, and answers the place behind them. An inner call: its callers know that there is room.
pub fn append(bytes: &[u8], out: &mut [u8], at: usize) -> usize
    requires { at + length bytes.now ≤ length out.old }
    ensures { Appended bytes.now out.old at out.new result }
{
    let end = at + bytes.len();
    out[at..end].copy_from_slice(bytes);
    end
}

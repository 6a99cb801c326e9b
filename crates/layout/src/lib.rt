// The bytes of a command sheet (document 01: order sheet) in a lent stretch of its own length. Places are indices from 0.
#![tactic(auto)]

ghost use Rattle.std.specs.Prelude.{◌≡◌, ◌+◌, ◌*◌, ◌≤◌, length, take};
ghost use Rattle.layout.specs.Layout.{layout};

use appending::append;
use phases::Counts;

// "The order sheet has its sizes first (one byte each: first wave, second wave), then two parallel arrays: the part codes of both
// waves, then the orders (0 off or open, 1 on or closed)." The bytes lent are the sheet's alone.
pub fn lay_out(opening: &[u8; 60], closing: &[u8; 60], counts: Counts, bytes: &mut [u8])
    requires opening_held { length opening.now ≡ 60 }
    requires closing_held { length closing.now ≡ 60 }
    requires opening_most { counts.opening ≤ 60 }
    requires closing_most { counts.closing ≤ 60 }
    requires exact { length bytes.old ≡ 2 + 2 * (counts.opening + counts.closing) }
    ensures { bytes.new ≡ layout (take counts.opening opening.now) (take counts.closing closing.now) }
{
    let opened = counts.opening;
    let closed = counts.closing;
    bytes[0] = opened as u8;
    bytes[1] = closed as u8;
    let closing_codes = append(&opening[..opened], bytes, 2);
    let commands = append(&closing[..closed], bytes, closing_codes);
    let closing_commands = commands + opened;
    bytes[commands..closing_commands].fill(0);
    bytes[closing_commands..].fill(1);
}

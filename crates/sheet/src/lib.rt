// The command sheet (document 01: order sheet) in a lent buffer. Places of the buffer are indices from 0.
#![tactic(auto)]

ghost use Rattle.std.specs.Prelude.{◌≡◌, ◌≤◌, length};
ghost use Rattle.model.specs.Values.{outcome_number, outcome_of};
ghost use Rattle.model.specs.Refusals.{sheet_refusal};
ghost use Rattle.model.specs.Answers.{buffer_after};
ghost use Rattle.sheet.specs.Writing.{Planned, sheet_by};

use model::{BusChoice, Commands, Refusal};

// Writes the sheet that leads from the old commands to the new, outward along the paths that the choices name, unless the buffer is
// shorter. An inner call: the new commands and the choices are a plan's, and n is at most 20, which its callers know.
pub fn write(
    n: u8,
    old: Commands,
    new: Commands,
    choices: [BusChoice; 20],
    buffer: &mut [u8],
) -> Result<(), Refusal>
    requires size { n ≤ 20 }
    requires planned { Planned n new choices }
    ensures answer { result ≡ outcome_of (sheet_refusal (length buffer.old) (sheet_by n old new choices)) }
    ensures number { outcome_number result ≡ sheet_refusal (length buffer.old) (sheet_by n old new choices) }
    ensures bytes { buffer.new ≡ buffer_after (sheet_by n old new choices) buffer.old }
{
    let buses = n as usize;
    // A ring has at most 60 parts, and so has a phase.
    let mut opening = [0u8; 60];
    let mut closing = [0u8; 60];
    let counts = phases::opening(buses, old, new, &mut opening);
    // "With k orders it is 2 + 2k bytes"
    let size = 2 + 2 * (counts.opening + counts.closing);
    let room = buffer.len();
    // 8: "order buffer shorter than the sheet"
    if room < size {
        return Err(Refusal::BufferShort);
    }
    sequences::closing(buses, old, choices, counts.closing, &mut closing);
    // "Bytes of the lent buffer behind the sheet keep their values."
    layout::lay_out(&opening, &closing, counts, &mut buffer[..size]);
    Ok(())
}

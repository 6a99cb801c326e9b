// The operations of a phase (document 01: wave) from the bytes of a command sheet. An `append_` function stores its text from `at` on
// and answers the place behind it.
#![tactic(auto)]

ghost use Rattle.std.specs.Prelude.{◌≡◌, ◌+◌, ◌*◌, ◌≤◌, length};
ghost use mathlib.Core.List.{◌++◌, zip_with};
ghost use Rattle.model.specs.Text.{ascii};
ghost use Rattle.model.specs.Laws.Appended.{Appended};
ghost use Rattle.model.specs.Laws.Spaced.{behind_spaces};
ghost use Rattle.operations.specs.Operations.{kind_of, marked_name, sign as sign_of, operation_text, phase_of};

use appending::append;
use numbers::append_marked;

// A part's kind by its code: `G`, `GB` or `BB`.
// kept: with an `append` in each branch an operation took 6 instructions more, in a phase of four 15 percent.
fn append_kind(code: u8, out: &mut [u8], at: usize) -> usize
    requires { at + 2 ≤ length out.old }
    ensures { Appended (kind_of code) out.old at out.new result }
{
    if code < 32 {
        out[at] = b'G';
        return at + 1;
    }
    if code < 64 {
        out[at] = b'G';
        out[at + 1] = b'B';
        return at + 2;
    }
    out[at] = b'B';
    out[at + 1] = b'B';
    at + 2
}

// The name of a code's part, and the byte behind it: `GB1+`.
pub fn append_part(code: u8, mark: u8, out: &mut [u8], at: usize) -> usize
    requires { at + 5 ≤ length out.old }
    ensures { Appended (marked_name code mark) out.old at out.new result }
{
    let number = append_kind(code, out, at);
    append_marked(code % 32 + 1, mark, out, number)
}

// "`+` is on or closed, a trailing `-` off or open"
fn sign(command: u8) -> u8
    ensures { result ≡ sign_of command }
{
    if command == 0 { b'-' } else { b'+' }
}

// An operation behind a space, as ` GB1+`.
fn append_operation(code: u8, command: u8, out: &mut [u8], at: usize) -> usize
    requires { at + 6 ≤ length out.old }
    ensures { Appended (ascii " " ++ operation_text code command) out.old at out.new result }
{
    out[at] = b' ';
    append_part(code, sign(command), out, at + 1)
}

// The operations of a phase, each behind a space.
fn append_operations(codes: &[u8], commands: &[u8], out: &mut [u8], at: usize) -> usize
    requires { (length commands.now ≡ length codes.now) × (at + 6 * length codes.now ≤ length out.old) }
    ensures { Appended (behind_spaces (zip_with operation_text codes.now commands.now))
        out.old at out.new result }
{
    let mut end = at;
    for (code, command) in codes.iter().zip(commands) {
        end = append_operation(*code, *command, out, end);
    }
    end
}

// A phase, "a lone `-` an empty wave".
pub fn append_phase(codes: &[u8], commands: &[u8], out: &mut [u8], at: usize) -> usize
    requires { (length commands.now ≡ length codes.now) × (at + 4 + 6 * length codes.now ≤ length out.old) }
    ensures { Appended (ascii " / " ++ phase_of codes.now commands.now)
        out.old at out.new result }
{
    if codes.is_empty() {
        return append(b" / -", out, at);
    }
    let operations = append(b" /", out, at);
    append_operations(codes, commands, out, operations)
}

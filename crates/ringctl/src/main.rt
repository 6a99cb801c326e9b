// The program: reads a fault file from standard input and prints its run. What it prints is proved in `run`: here is a read, a loop around
// `run::fill`, and a write.
#![tactic(auto)]

ghost use Rattle.std.specs.Prelude.{◌≤◌, length};
ghost use Rattle.model.specs.Text.{line_room};

use std::io;

// Prints the run of a file.
fn print_run(rt: &impl Print, file: &[u8], out: &mut [u8]) -> io::Result<()>
    requires { line_room ≤ length out.old }
{
    let mut cursor = run::begin();
    let mut more = true;
    while more {
        let piece = run::fill(cursor, file, out);
        let length = piece.length;
        rt.write_all(&out[..length])?;
        cursor = piece.cursor;
        more = piece.more;
    }
    Ok(())
}

// kept: a main shared with the other programs of a file would take a name, a buffer and a closure, in as many lines
fn main(rt: HostRuntime) {
    let mut file = [0u8; 8196];
    let Ok(size) = reading::read_file(&mut rt.stdin(), &mut file) else {
        let _ = rt.eprintln("ringctl: standard input cannot be read");
        return;
    };
    let mut out = [0u8; 65536];
    if print_run(&rt, &file[..size], &mut out).is_err() {
        let _ = rt.eprintln("ringctl: standard output cannot be written");
    }
}

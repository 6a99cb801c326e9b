// The program: reads the rates of sixty parts, nine bytes each, and a fault file from standard input, and prints the chance of a dark hour of
// every bus after its last report. What it prints is proved in `datasheets` and `chances`: here are two reads and a write.
#![tactic(auto)]

use model::Rates;
use std::io;
use std::io::Read;

// Reads a file and prints its text.
fn print_text<R: Read>(rt: &(impl Print + Eprint), source: &mut R, rates: Rates) -> io::Result<()> {
    let mut file = [0u8; 8196];
    let Ok(size) = reading::read_file(source, &mut file) else {
        let _ = rt.eprintln("ringchance: standard input cannot be read");
        return Ok(());
    };
    let mut out = [0u8; 880];
    let length = chances::text(rates, &file[..size], &mut out);
    rt.write_all(&out[..length])
}

fn main(rt: HostRuntime) {
    let mut sheets = [0u8; 540];
    let mut stdin = rt.stdin();
    if reading::read_full(&mut stdin, &mut sheets) != Ok(540) {
        let _ = rt.eprintln("ringchance: the rates are broken off");
        return;
    }
    let rates = datasheets::rates_at(&sheets, 0);
    if print_text(&rt, &mut stdin, rates).is_err() {
        let _ = rt.eprintln("ringchance: standard output cannot be written");
    }
}

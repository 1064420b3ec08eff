// read_scans SCANS [LETTERS TERMINALS]: reads a scan file, with the letters of a letters book for so many terminals or else the house letters,
// and prints the reply's number and place, then the tokens of a file that was read, each on a line.
#![tactic(auto)]

use program::Error;
use std::io::Write;

// The most scans that a file has.
const SCANS: usize = 65536;

// In a frame of its own, none of which stands while the files are read.
#[inline(never)]
fn show(rt: HostRuntime, scans: &[u8], letters: Option<&[u8]>) -> Result<(), Error<'static>> {
    let mut tokens = [0u8; SCANS];
    let reply = match letters {
        Some(letters) => {
            let terminals = program::read_number(rt, 3, b"TERMINALS")?;
            lettered_scans::read_lettered(letters, terminals as usize, scans, &mut tokens)
        }
        None => scans::read_scans(scans, &mut tokens),
    };
    let mut out = program::output(rt);
    writeln!(out, "{},{}", reply::number(reply), reply::place(reply))?;
    program::print_bytes(&mut out, &tokens);
    out.flush()?;
    Ok(())
}

fn run(rt: HostRuntime) -> Result<(), Error<'static>> {
    let mut scans = [0u8; program::FILE];
    let scans = program::read(rt, 1, b"SCANS", &mut scans)?;
    let mut letters = [0u8; program::FILE];
    let letters = program::read_optional(rt, 2, b"LETTERS", &mut letters)?;
    show(rt, scans, letters)
}

fn main(rt: HostRuntime) {
    if let Err(error) = run(rt) {
        error.tell(rt, "usage: read_scans SCANS [LETTERS TERMINALS]\n");
    }
}

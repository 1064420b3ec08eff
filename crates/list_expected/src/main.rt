// list_expected GRAMMAR TABLES SCANS [LETTERS]: walks the scans of a file, with the letters of a letters book or else the house letters, and
// lists which codes could have come where the walk ended, whole or wrong. Prints the reply's number and place, then each code on a line: 0
// for the end of the session.
#![tactic(auto)]

use program::Error;
use std::io;
use std::io::Write;

// The most codes that a list can have: 0 and 63 terminals.
const CODES: usize = 64;

// Walks the scans, with the letters of a letters book where there is one, and prints the answer. In a frame of its own, none of which
// stands while the files are read.
#[inline(never)]
fn list(
    rt: HostRuntime,
    grammar: &[u8],
    tables: &[u8],
    scans: &[u8],
    letters: Option<&[u8]>,
) -> io::Result<()> {
    let mut stack = program::lend(0);
    let mut listing = program::lend(0);
    let mut codes = [0u8; CODES];
    let answer = match letters {
        Some(letters) => expected_scans::list_expected_lettered(
            grammar,
            tables,
            letters,
            scans,
            &mut stack,
            &mut listing,
            &mut codes,
        ),
        None => expected_scans::list_expected_scans(
            grammar,
            tables,
            scans,
            &mut stack,
            &mut listing,
            &mut codes,
        ),
    };
    let reply = expected::as_reply(answer);
    let mut out = program::output(rt);
    writeln!(out, "{},{}", reply::number(reply), reply::place(reply))?;
    for code in codes.iter().take(expected::code_count(answer)) {
        writeln!(out, "{code}")?;
    }
    out.flush()
}

fn run(rt: HostRuntime) -> Result<(), Error<'static>> {
    let mut grammar = [0u8; program::FILE];
    let grammar = program::read(rt, 1, b"GRAMMAR", &mut grammar)?;
    let mut tables = [0u8; program::FILE];
    let tables = program::read(rt, 2, b"TABLES", &mut tables)?;
    let mut scans = [0u8; program::FILE];
    let scans = program::read(rt, 3, b"SCANS", &mut scans)?;
    let mut letters = [0u8; program::FILE];
    let letters = program::read_optional(rt, 4, b"LETTERS", &mut letters)?;
    list(rt, grammar, tables, scans, letters)?;
    Ok(())
}

fn main(rt: HostRuntime) {
    if let Err(error) = run(rt) {
        error.tell(rt, "usage: list_expected GRAMMAR TABLES SCANS [LETTERS]\n");
    }
}

// run_session GRAMMAR TABLES SCANS [LETTERS]: walks the scans of a file, with the letters of a letters book or else the house letters, by the
// tables of a book that is checked against the grammar's. Prints the reply's number and place, the number of rules and that of units, then
// each listed rule on a line.
#![tactic(auto)]

use program::Error;
use std::io;
use std::io::Write;

// Walks the scans, with the letters of a letters book where there is one, and prints the answer. In a frame of its own, none of which
// stands while the files are read.
#[inline(never)]
fn walk(
    rt: HostRuntime,
    grammar: &[u8],
    tables: &[u8],
    scans: &[u8],
    letters: Option<&[u8]>,
) -> io::Result<()> {
    let mut stack = program::lend(0);
    let mut listing = program::lend(0);
    let answer = match letters {
        Some(letters) => scan_session::run_lettered(
            grammar,
            tables,
            letters,
            scans,
            &mut stack,
            &mut listing,
        ),
        None => scan_session::run_scans(grammar, tables, scans, &mut stack, &mut listing),
    };
    let reply = walker::as_reply(answer);
    let mut out = program::output(rt);
    writeln!(
        out,
        "{},{},{},{}",
        reply::number(reply),
        reply::place(reply),
        walker::rule_count(answer),
        walker::unit_count(answer),
    )?;
    program::print_bytes(&mut out, &listing);
    out.flush()
}

fn run(rt: HostRuntime) -> Result<(), Error<'static>> {
    let mut grammar = [0u8; program::FILE];
    let grammar = program::read(rt, 1, b"GRAMMAR", &mut grammar)?;
    let mut tables = [0u8; program::FILE];
    let tables = program::read(rt, 2, b"TABLES", &mut tables)?;
    let mut scans = [0u8; program::FILE];
    let scans = program::read(rt, 3, b"SCANS", &mut scans)?;
    let mut letters = [0u8; program::FILE];
    let letters = program::read_optional(rt, 4, b"LETTERS", &mut letters)?;
    walk(rt, grammar, tables, scans, letters)?;
    Ok(())
}

fn main(rt: HostRuntime) {
    if let Err(error) = run(rt) {
        error.tell(rt, "usage: run_session GRAMMAR TABLES SCANS [LETTERS]\n");
    }
}

// check_tables GRAMMAR TABLES: checks a table book against its grammar book, and prints the reply's number and place.
#![tactic(auto)]

use program::Error;
use std::io::Write;

fn run(rt: HostRuntime) -> Result<(), Error<'static>> {
    let mut grammar = [0u8; program::FILE];
    let grammar = program::read(rt, 1, b"GRAMMAR", &mut grammar)?;
    let mut tables = [0u8; program::FILE];
    let tables = program::read(rt, 2, b"TABLES", &mut tables)?;
    let reply = checker::check_tables(grammar, tables);
    let mut out = program::output(rt);
    writeln!(out, "{},{}", reply::number(reply), reply::place(reply))?;
    out.flush()?;
    Ok(())
}

fn main(rt: HostRuntime) {
    if let Err(error) = run(rt) {
        error.tell(rt, "usage: check_tables GRAMMAR TABLES\n");
    }
}

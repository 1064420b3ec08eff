// bound_listing GRAMMAR SCANS: how many rules the listing of a session of so many scans can have. Prints the reply's number and place, and the
// bound, or `-` where a right side is empty and there is none.
#![tactic(auto)]

use program::Error;
use std::io;
use std::io::Write;

// In a frame of its own, none of which stands while the file is read.
#[inline(never)]
fn show(rt: HostRuntime, grammar: &[u8], scans: usize) -> io::Result<()> {
    let answer = listing_bound::bound_listing(grammar, scans);
    let reply = listing_bound::as_reply(answer);
    let mut out = program::output(rt);
    write!(out, "{},{},", reply::number(reply), reply::place(reply))?;
    if listing_bound::is_unbounded(answer) {
        writeln!(out, "-")?;
    } else {
        writeln!(out, "{}", listing_bound::rule_count(answer))?;
    }
    out.flush()
}

fn run(rt: HostRuntime) -> Result<(), Error<'static>> {
    let mut grammar = [0u8; program::FILE];
    let grammar = program::read(rt, 1, b"GRAMMAR", &mut grammar)?;
    let scans = program::read_number(rt, 2, b"SCANS")?;
    show(rt, grammar, scans as usize)?;
    Ok(())
}

fn main(rt: HostRuntime) {
    if let Err(error) = run(rt) {
        error.tell(rt, "usage: bound_listing GRAMMAR SCANS\n");
    }
}

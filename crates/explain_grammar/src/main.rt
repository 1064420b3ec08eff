// explain_grammar GRAMMAR..: builds the tables of each grammar book, prints the reply's number and place, and tells in words why there are none.
#![tactic(auto)]

ghost use Rattle.std.specs.Prelude.{◌+◌, ◌≤◌};
ghost use Rattle.check_memory.specs.Given.{TableRoom};
ghost use Rattle.build_writer.specs.MemoryTable as writer;

mod ways;

use build_memory::Built;
use explain_lines::Page;
use explain_states::Question;
use program::Printer;
use reply::{Kind, Refusal, Reply};
use std::fmt::Write;
use table::Counts;
use ways::Moves;

// The most conflicts that are told in words.
const MOST: usize = 20;

// The memory that the tables are built in.
#[derive(Drop)]
struct Memory {
    items: [u8; table::ITEMS],
    entries: [u8; table::ENTRY_STATES],
    kernels: [u8; table::KERNELS],
    lookaheads: [u8; table::LOOKAHEADS],
    kinds: [u8; table::CELLS],
    values: [u8; table::CELLS],
    gotos: [u8; table::CELLS],
    named: [u8; table::NAMED],
}

// The conflicts of the states from `first` on, and how each state is reached.
fn explain_conflicts(out: &mut Printer, m: &Memory, counts: Counts, first: usize)
    requires table_room { TableRoom m.now.items m.now.entries m.now.kernels m.now.lookaheads m.now.kinds m.now.values m.now.gotos m.now.named (counts.grammar.rules + counts.entries) counts.grammar.rules counts.entries counts.kernels }
    requires terminals_bound { (counts.grammar.terminals ≤ 63) × (counts.states ≤ 255) × (1 ≤ first) }
{
    let moves = Moves {
        kinds: &m.kinds,
        values: &m.values,
        gotos: &m.gotos,
    };
    let mut found: usize = 0;
    for q in first..counts.states + 1 {
        let question = Question {
            number: 9,
            place: q,
            room: MOST.saturating_sub(found),
        };
        let more = explain_states::explain_memory(
            out,
            &m.items,
            &m.entries,
            &m.kernels,
            &m.lookaheads,
            &m.kinds,
            &m.values,
            &m.gotos,
            &m.named,
            counts,
            question,
        );
        if more != 0 && found < MOST {
            let way = moves.way_to(q, counts.entries);
            let _ = writeln!(Page(out), "{way}");
        }
        found += more;
    }
    if MOST < found {
        let hidden = found - MOST;
        let _ = writeln!(Page(out), "conflicts that are not shown: {hidden}");
    }
}

// The first line, the reply's number and place, and why, in words that end a line.
fn print_reply(out: &mut Printer, reply: Reply, why: &str) {
    let number = reply::number(reply);
    let place = reply::place(reply);
    let _ = write!(Page(out), "{number},{place}\n{why}");
}

// A refusal's first line.
fn print_refusal(out: &mut Printer, kind: Kind, place: usize, why: &str) {
    print_reply(out, Reply::Refused(Refusal { kind, place }), why);
}

// A grammar book that is refused.
fn explain_book(out: &mut Printer, grammar: &[u8], why: Refusal) {
    let reply = Reply::Refused(why);
    print_reply(out, reply, "");
    explain_lines::explain_grammar_book(out, grammar, reply::number(reply), reply::place(reply));
}

// A table without conflicts: its book may still be too long.
fn explain_length(out: &mut Printer, m: &Memory, counts: Counts)
    requires { writer.WriterRoom m.now.items m.now.entries m.now.kernels m.now.lookaheads m.now.kinds m.now.values m.now.gotos counts.grammar.rules counts.entries counts.kernels counts.states (counts.grammar.terminals + 1) }
{
    // Only the length is asked for.
    let mut book = [0u8; 1];
    let n = build_writer::write_table(
        &m.items,
        &m.entries,
        &m.kernels,
        &m.lookaheads,
        &m.kinds,
        &m.values,
        &m.gotos,
        counts,
        &mut book,
    );
    if 65536 < n {
        print_refusal(
            out,
            Kind::LimitExceeded,
            0,
            "the table book would be longer than 65536 bytes\n",
        );
    } else {
        print_reply(out, Reply::Accepted(0), "the tables can be built\n");
    }
}

// In a frame of its own, none of which stands while the book is read.
#[inline(never)]
fn show(rt: HostRuntime, grammar: &[u8]) {
    let mut m = Memory {
        items: [0; table::ITEMS],
        entries: [0; table::ENTRY_STATES],
        kernels: [0; table::KERNELS],
        lookaheads: [0; table::LOOKAHEADS],
        kinds: [0; table::CELLS],
        values: [0; table::CELLS],
        gotos: [0; table::CELLS],
        named: [0; table::NAMED],
    };
    let built = build_memory::build(
        grammar,
        &mut m.items,
        &mut m.entries,
        &mut m.kernels,
        &mut m.lookaheads,
        &mut m.kinds,
        &mut m.values,
        &mut m.gotos,
    );
    let mut out = program::output(rt);
    match built {
        Built::Refused(why) => explain_book(&mut out, grammar, why),
        Built::TooLarge => print_refusal(
            &mut out,
            Kind::LimitExceeded,
            0,
            "there would be more than 127 entries, 255 states or 1023 kernel lines\n",
        ),
        Built::Table(counts) => explain_length(&mut out, &m, counts),
        Built::Conflict(q, counts) => {
            print_refusal(&mut out, Kind::Conflict, q, "");
            explain_conflicts(&mut out, &m, counts, q);
        }
    }
    program::flush(&mut out);
}

// Reads the grammar book that argument i names.
fn run(rt: HostRuntime, i: usize) {
    // One byte more than a book may have.
    let mut grammar = [0u8; program::FILE];
    let input = program::read_argument(
        rt,
        i,
        b"GRAMMAR",
        b"usage: explain_grammar GRAMMAR..\n",
        &mut grammar,
    );
    if !input.failed {
        show(rt, &grammar[..input.size]);
    }
}

fn main(rt: HostRuntime) {
    let count = program::argument_count(rt);
    run(rt, 1);
    for i in 2..count {
        run(rt, i);
    }
}

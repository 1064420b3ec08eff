// explain_tables (GRAMMAR TABLES)..: checks each table book against its grammar book, prints the reply's number and place, and tells in words
// why the tables are refused.
#![tactic(auto)]

ghost use Rattle.std.specs.Prelude.{◌+◌, ◌≤◌};
ghost use Rattle.check_memory.specs.Given.{TableRoom};

use explain_states::Question;
use grammar::GrammarReply;
use program::{Printer, print_text};
use symbol::CODES;
use table::{Counts, TableReply};

const USAGE: &[u8] = b"usage: explain_tables (GRAMMAR TABLES)..\n";

// The memory that a table book is read into.
#[derive(Drop)]
struct Memory {
    items: [u8; table::ITEMS],
    entries: [u8; table::ENTRY_STATES],
    kernels: [u8; table::KERNELS],
    lookaheads: [u8; table::LOOKAHEADS],
    kinds: [u8; table::CELLS],
    values: [u8; table::CELLS],
    gotos: [u8; table::CELLS],
    named: [u8; table::NAMED],
}

// The reply to a pair of books.
#[derive(Clone, Copy)]
struct Verdict {
    number: u64,
    place: usize,
}

// The tables in memory, by the reply to them: 0, or 7 to 10.
fn explain_tables(out: &mut Printer, m: &Memory, counts: Counts, verdict: Verdict)
    requires table_room { TableRoom m.now.items m.now.entries m.now.kernels m.now.lookaheads m.now.kinds m.now.values m.now.gotos m.now.named (counts.grammar.rules + counts.entries) counts.grammar.rules counts.entries counts.kernels }
    requires terminals_bound { (counts.grammar.terminals ≤ 63) × (counts.states ≤ 255) }
{
    if verdict.number == 0 {
        print_text(out, b"the tables meet the construction\n");
        return;
    }
    let question = Question {
        number: verdict.number,
        place: verdict.place,
        room: CODES,
    };
    explain_states::explain_memory(
        out,
        &m.items,
        &m.entries,
        &m.kernels,
        &m.lookaheads,
        &m.kinds,
        &m.values,
        &m.gotos,
        &m.named,
        counts,
        question,
    );
}

// Why a book is refused: the grammar book, where it is refused by itself, else the table book.
fn explain_book(out: &mut Printer, grammar: &[u8], book: &[u8], verdict: Verdict) {
    // Both lengths come before all else.
    if book.len() > 65536 {
        explain_lines::explain_length(out, b'T');
        return;
    }
    let mut items = [0u8; grammar::TABLE];
    let answer = grammar::read_grammar(grammar, &mut items);
    let GrammarReply::Read(h) = answer else {
        explain_lines::explain_grammar_book(out, grammar, verdict.number, verdict.place);
        return;
    };
    explain_lines::explain_table_book(
        out,
        &items,
        h.terminals,
        h.nonterminals,
        h.rules,
        book,
        verdict.number,
        verdict.place,
    );
}

// In a frame of its own, none of which stands while the books are read.
#[inline(never)]
fn show(rt: HostRuntime, grammar: &[u8], book: &[u8]) {
    let mut m = Memory {
        items: [0; table::ITEMS],
        entries: [0; table::ENTRY_STATES],
        kernels: [0; table::KERNELS],
        lookaheads: [0; table::LOOKAHEADS],
        kinds: [0; table::CELLS],
        values: [0; table::CELLS],
        gotos: [0; table::CELLS],
        named: [0; table::NAMED],
    };
    let checked = checker::check_books(
        grammar,
        book,
        &mut m.items,
        &mut m.entries,
        &mut m.kernels,
        &mut m.lookaheads,
        &mut m.kinds,
        &mut m.values,
        &mut m.gotos,
        &mut m.named,
    );
    let verdict = Verdict {
        number: reply::number(checked.verdict),
        place: reply::place(checked.verdict),
    };
    let mut out = program::output(rt);
    program::print_pair(&mut out, verdict.number, verdict.place as u64);
    let answer = checked.answer;
    match answer {
        TableReply::Refused(_) => explain_book(&mut out, grammar, book, verdict),
        TableReply::Read(counts) => explain_tables(&mut out, &m, counts, verdict),
    }
    program::flush(&mut out);
}

// Reads both books, which the arguments i and i + 1 name.
fn run(rt: HostRuntime, i: usize)
    requires { i + 1 ≤ 18446744073709551615 }
{
    // One byte more than a book may have.
    let mut grammar = [0u8; program::FILE];
    let first = program::read_argument(rt, i, b"GRAMMAR", USAGE, &mut grammar);
    if first.failed {
        return;
    }
    let mut book = [0u8; program::FILE];
    let second = program::read_argument(rt, i + 1, b"TABLES", USAGE, &mut book);
    if second.failed {
        return;
    }
    show(rt, &grammar[..first.size], &book[..second.size]);
}

fn main(rt: HostRuntime) {
    let count = program::argument_count(rt);
    if count < 2 {
        program::tell_missing(rt, b"GRAMMAR", USAGE);
        return;
    }
    if count % 2 == 0 {
        program::tell_missing(rt, b"TABLES", USAGE);
        return;
    }
    for i in (1..count).step_by(2) {
        run(rt, i);
    }
}

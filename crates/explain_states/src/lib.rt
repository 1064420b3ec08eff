// Refusals in words: the line, the item, the code, the actions.
// Inner: for the programs that explain.
#![tactic(auto)]

ghost use Rattle.std.specs.Prelude.{◌≡◌, ◌+◌, ◌<◌, ◌≤◌};
ghost use Rattle.check_memory.specs.Given.{TableRoom, Computed};
ghost use Rattle.check_missing.specs.Missing.{MissingAt};

mod demands;
mod given;
mod words;

use check_entries::EntryFault;
use check_missing::MissingCode;
use check_targets::ItemFault;
use demands::{explain_cells, explain_conflicts};
use explain_lines::Page;
use given::{Prepared, State, Table};
use grammar_header::Heading;
use memory::Totals;
use program::Printer;
use std::fmt::Write;
use symbol::{CODES, SYMBOLS};
use table::Counts;
use words::Items;

// Which reply is told, at which place, and for how many conflicts there is room.
#[derive(Clone, Copy)]
pub struct Question {
    pub number: u64,
    pub place: usize,
    pub room: usize,
}

// Reply 7 at place 0.
fn explain_entries(out: &mut Page<'_>, items: Items<'_>, strings: usize, goal: usize)
    requires count { items.count ≡ items.rules + strings }
    requires rules_bound { (items.rules ≤ 127) × (1 ≤ strings) × (strings ≤ 127) }
{
    let mut uses = [0u8; 2048];
    let fault = check_entries::find_entry_fault(items.rows, items.rules, strings, goal, &mut uses);
    let _ = match fault {
        EntryFault::NotGoal => {
            let string = items.string(items.rules + 1);
            writeln!(out, "entry 1, string{string}, is not the goal {goal} alone")
        }
        EntryFault::Bare(i, from, to) => {
            let group = items.group_number(i, from);
            let string = items.symbols(i, from, to);
            writeln!(
                out,
                "rule {i}: its group {group}, string{string}, has no entry"
            )
        }
        EntryFault::Unwanted(k) => {
            let string = items.string(items.rules + k);
            writeln!(
                out,
                "entry {k}, string{string}, is neither the goal nor a group"
            )
        }
        EntryFault::Nothing => Ok(()),
    };
}

// Reply 7 at a state.
fn explain_items(out: &mut Page<'_>, state: State<'_>) {
    let p = state.prepared;
    let t = p.table;
    let q = state.q;
    let fault = check_items::find_item_fault(
        t.items,
        t.entries,
        t.kernels,
        p.links,
        t.kinds,
        t.values,
        t.gotos,
        t.named,
        state.present,
        state.symbols,
        t.totals,
        q,
    );
    let _ = match fault {
        ItemFault::Unnamed => {
            writeln!(
                out,
                "state {q} is neither that of an entry nor named as next"
            )
        }
        ItemFault::Entry(k) => {
            let item = t.items().item(t.totals.rules + k, 0);
            let user = p.user(k);
            writeln!(
                out,
                "state {q} is that of entry {k}, and its kernel is not the one {item}{user}"
            )
        }
        ItemFault::Lost(i, k) => {
            let x = moves::symbol_after(t.items, t.totals.items, i, k);
            let next = t.next(q, x);
            let item = t.items().item(i, k + 1);
            let user = p.item_user(i);
            writeln!(
                out,
                "on symbol {x} state {q} goes to state {next}, whose kernel is not the moved items: it lacks {item}{user}"
            )
        }
        ItemFault::Extra(x, l) => {
            let next = t.next(q, x);
            let item = t.line_item(l);
            let user = p.item_user(item.number);
            writeln!(
                out,
                "on symbol {x} state {q} goes to state {next}, whose kernel is not the moved items: it has {item}, which does not move there{user}"
            )
        }
        ItemFault::Nothing => Ok(()),
    };
}

// A lookahead that a line of state q lacks. In a frame of its own: its sets take 64 KiB, and nothing is printed while they stand.
#[inline(never)]
fn find_missing(p: Prepared<'_>, q: usize) -> MissingCode
    requires computed { Computed p.table.items.now p.table.kernels.now p.links.now p.uses.now p.nullable.now p.first.now p.starts.now p.through.now p.table.totals.rules p.table.totals.lines p.table.totals.codes }
    requires few_states { (1 ≤ p.table.totals.codes) × (p.table.totals.states ≤ 255) }
    requires state { q < 256 }
    ensures { MissingAt p.entry.table.kernels.now p.entry.table.lookaheads.now p.entry.table.totals.lines p.entry.table.totals.codes q result }
{
    let t = p.table;
    check_missing::find_missing(
        t.items,
        t.entries,
        t.kernels,
        p.links,
        t.lookaheads,
        t.kinds,
        t.values,
        t.gotos,
        t.named,
        p.uses,
        p.nullable,
        p.first,
        p.starts,
        p.through,
        t.totals,
        q,
    )
}

// Reply 8 at state q.
fn explain_lookaheads(out: &mut Page<'_>, p: Prepared<'_>, q: usize)
    requires computed { Computed p.table.items.now p.table.kernels.now p.links.now p.uses.now p.nullable.now p.first.now p.starts.now p.through.now p.table.totals.rules p.table.totals.lines p.table.totals.codes }
    requires few_states { (1 ≤ p.table.totals.codes) × (p.table.totals.states ≤ 255) }
    requires state { q < 256 }
{
    let MissingCode::Code(l, c, asking) = find_missing(p, q) else {
        return;
    };
    let item = p.table.line_item(l);
    let _ = if asking == 0 {
        writeln!(
            out,
            "{item}: its context lacks code {c}, which the goal's entry must have"
        )
    } else {
        let user = p.item_user(item.number);
        writeln!(
            out,
            "{item}: its context lacks code {c}, which the items of state {asking} ask for{user}"
        )
    };
}

// Replies 7, 9 and 10 at a state of a table, with its closure. In a frame of its own, so that its caller's arrays can lie where those of
// the check lay, whose room is free by then.
#[inline(never)]
fn explain_state(out: &mut Page<'_>, p: Prepared<'_>, question: Question) -> usize
    requires computed { Computed p.table.items.now p.table.kernels.now p.links.now p.uses.now p.nullable.now p.first.now p.starts.now p.through.now p.table.totals.rules p.table.totals.lines p.table.totals.codes }
    requires few_states { (1 ≤ p.table.totals.codes) × (p.table.totals.states ≤ 255) }
    requires state { question.place < 256 }
    ensures { result ≤ 64 }
{
    let q = question.place;
    let t = p.table;
    let totals = t.totals;
    let mut present = [0u8; CODES];
    let mut follow = [0u8; 4096];
    let mut symbols = [0u8; SYMBOLS];
    closure::close_state(
        t.items,
        t.kernels,
        p.links,
        t.lookaheads,
        p.nullable,
        p.first,
        p.starts,
        p.through,
        totals,
        q,
        &mut present,
        &mut follow,
    );
    moves::flag_moves(
        t.items,
        t.kernels,
        p.links,
        &present,
        totals.items,
        totals.rules,
        totals.lines,
        q,
        &mut symbols,
    );
    let state = State {
        prepared: p,
        q,
        present: &present,
        follow: &follow,
        symbols: &symbols,
    };
    match question.number {
        7 => explain_items(out, state),
        9 => return explain_conflicts(out, state, question.room),
        _ => explain_cells(out, state),
    }
    0
}

// A refusal of a table at state `place`.
fn explain_table(
    out: &mut Page<'_>,
    table: Table<'_>,
    heading: Heading,
    question: Question,
) -> usize
    requires terminals { (heading.terminals ≤ 63) × (table.totals.codes ≡ heading.terminals + 1) }
    requires few_states { table.totals.states ≤ 255 }
    requires state { question.place < 256 }
    ensures { result ≤ 64 }
{
    let totals = table.totals;
    let mut uses = [0u8; 2048];
    let mut nullable = [0u8; SYMBOLS];
    let mut first = [0u8; 8192];
    let mut starts = [0u8; 8192];
    let mut through = [0u8; 128];
    let mut links = [0usize; 1280];
    check_entries::entries_meet(
        table.items,
        totals.rules,
        totals.entries,
        heading.goal,
        &mut uses,
    );
    analysis::find_sets(
        table.items,
        heading.terminals,
        totals.rules,
        &mut nullable,
        &mut first,
    );
    closure::prepare_rules(
        table.items,
        &nullable,
        &first,
        totals.items,
        totals.rules,
        totals.codes,
        &mut starts,
        &mut through,
    );
    kernel_lines::link_lines(table.kernels, totals.lines, totals.items, &mut links);
    let prepared = Prepared {
        table,
        links: &links,
        uses: &uses,
        nullable: &nullable,
        first: &first,
        starts: &starts,
        through: &through,
    };
    if question.number == 8 {
        explain_lookaheads(out, prepared, question.place);
        return 0;
    }
    explain_state(out, prepared, question)
}

// A refusal of tables in memory: 7 to 10. Of conflicts as many are told as there is room for, and their number is the answer.
pub fn explain_memory<'a>(
    out: &mut Printer,
    items: &'a [u8],
    entries: &'a [u8],
    kernels: &'a [u8],
    lookaheads: &'a [u8],
    kinds: &'a [u8],
    values: &'a [u8],
    gotos: &'a [u8],
    named: &'a [u8],
    counts: Counts,
    question: Question,
) -> usize
    requires table_room { TableRoom items.now entries.now kernels.now lookaheads.now kinds.now values.now gotos.now named.now (counts.grammar.rules + counts.entries) counts.grammar.rules counts.entries counts.kernels }
    requires terminals_bound { (counts.grammar.terminals ≤ 63) × (counts.states ≤ 255) }
    ensures { result ≤ 64 }
{
    let heading = counts.grammar;
    let totals = Totals {
        items: heading.rules + counts.entries,
        rules: heading.rules,
        entries: counts.entries,
        lines: counts.kernels,
        codes: heading.terminals + 1,
        states: counts.states,
    };
    let table = Table {
        items,
        entries,
        kernels,
        lookaheads,
        kinds,
        values,
        gotos,
        named,
        totals,
    };
    let mut page = Page(out);
    match question.place {
        0 => {
            explain_entries(&mut page, table.items(), counts.entries, heading.goal);
            0
        }
        1..=255 => explain_table(&mut page, table, heading, question),
        _ => 0,
    }
}

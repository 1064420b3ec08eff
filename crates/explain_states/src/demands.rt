// What the items of a state ask of its cells.
ghost use Rattle.std.specs.Prelude.{◌<◌, ◌≤◌};

use crate::given::{Row, State};
use crate::words::{Action, Item};
use explain_lines::Page;
use fixpoint::Found;
use std::fmt::Write;
use symbol::{CODES, Symbol};

// What the items of a state ask of its cells: an action for each code, and another where two differ.
#[derive(Clone, Copy)]
struct Asked {
    asked: [usize; CODES],
    others: [usize; CODES],
}

fn ask_cells(state: State<'_>) -> Asked {
    let p = state.prepared;
    let t = p.table;
    let mut asked = [0usize; CODES];
    let mut others = [0usize; CODES];
    cells::ask_cells(
        t.items,
        t.kernels,
        p.links,
        t.lookaheads,
        p.nullable,
        p.first,
        state.present,
        state.follow,
        state.symbols,
        t.totals,
        state.q,
        &mut asked,
        &mut others,
    );
    Asked { asked, others }
}

// Prints what an item of the state asks of the cell for code c, if it asks something.
fn print_demand(out: &mut Page<'_>, state: State<'_>, item: Item<'_>, row: Row<'_>, c: usize)
    requires item { item.number ≤ state.prepared.table.totals.items }
    requires dot { item.dot ≤ 15 }
    requires code { c < 64 }
{
    let demand = state.prepared.demand(item, row, c);
    if demand != 0 {
        let action = Action(demand);
        let _ = writeln!(out, "{action}: {item}");
    }
}

// Prints the items of the state that ask something of the cell for code c: its kernel items, then the rules that the closure adds.
fn print_demands(out: &mut Page<'_>, state: State<'_>, c: usize)
    requires { c < 64 }
{
    let t = state.prepared.table;
    let totals = t.totals;
    for l in 0..totals.lines {
        if kernel_lines::state_of(t.kernels, totals.lines, totals.items, l) == state.q {
            let row = Row {
                flags: t.lookaheads,
                start: l * CODES,
            };
            print_demand(out, state, t.line_item(l), row, c);
        }
    }
    for i in 1..totals.rules + 1 {
        if moves::is_present(t.items, state.present, totals.items, i) {
            let left = items::left_of(t.items, totals.items, i);
            let row = Row {
                flags: state.follow,
                start: (left - Symbol::FIRST_NONTERMINAL) * CODES,
            };
            print_demand(out, state, t.items().item(i, 0), row, c);
        }
    }
}

// Reply 9 at a state: each code whose cell would hold two actions, as far as there is room. Answers their number.
pub fn explain_conflicts(out: &mut Page<'_>, state: State<'_>, room: usize) -> usize
    ensures { result ≤ 64 }
{
    let cells = ask_cells(state);
    let q = state.q;
    let mut found: usize = 0;
    for c in 0..CODES {
        let first = Action(cells.asked[c]);
        let second = Action(cells.others[c]);
        if second.0 == 0 {
            continue;
        }
        if found < room {
            let _ = writeln!(out, "state {q}, code {c}: {first}, and {second}");
            print_demands(out, state, c);
        }
        found += 1;
    }
    found
}

// A nonterminal's line that is missing or extra.
fn explain_goto(out: &mut Page<'_>, state: State<'_>) {
    let gotos = state.prepared.table.gotos;
    let Found::At(b) = check_cells::find_goto(state.symbols, gotos, state.q) else {
        return;
    };
    let x = Symbol::FIRST_NONTERMINAL + b;
    let _ = if gotos[state.q * CODES + b] == 0 {
        writeln!(
            out,
            "on symbol {x}: the line is missing; asked: a next state; there: nothing"
        )
    } else {
        writeln!(
            out,
            "on symbol {x}: the line is extra; asked: nothing; there: a next state"
        )
    };
}

// Reply 10 at a state: a cell that is not what is asked.
pub fn explain_cells(out: &mut Page<'_>, state: State<'_>) {
    let cells = ask_cells(state);
    let t = state.prepared.table;
    let cell = check_cells::find_cell(&cells.asked, t.kinds, t.values, t.totals.codes, state.q);
    let Found::At(c) = cell else {
        return explain_goto(out, state);
    };
    let asked = Action(cells.asked[c]);
    let there = Action(check_cells::demand_of(t.kinds, t.values, state.q, c));
    let fault = match (asked.0, there.0) {
        (_, 0) => "missing",
        (0, _) => "extra",
        _ => "different",
    };
    let _ = writeln!(
        out,
        "on symbol {c}: the line is {fault}; asked: {asked}; there: {there}"
    );
    print_demands(out, state, c);
}

// The verdict on tables in memory.
// Inner: for `checker`.
#![tactic(auto)]

ghost use Rattle.std.specs.Prelude.{◌≡◌, ℕ, ◌+◌, ◌<◌, ◌≤◌, length, replicate};
ghost use Rattle.language.specs.Grammar.{Grammar};
ghost use Rattle.leftcorner.specs.Table.{Table};
ghost use Rattle.leftcorner.specs.Construction.{EntriesMeet};
ghost use Rattle.fixpoint.specs.Flags.{Off};
ghost use Rattle.analysis.specs.FirstBy.{FirstBy};
ghost use Rattle.check_entries.specs.Uses.{HoldsUses};
ghost use Rattle.check_memory.specs.Accepts.{table_verdict};
ghost use Rattle.check_memory.specs.Faults.{Fault, noted, answer_of, StateChecked, Found};
ghost use Rattle.check_memory.specs.Given.{TableRoom, Computed, Given};

use memory::Totals;
use reply::{Kind, Reply};
use symbol::{CODES, SYMBOLS};

// What is told of one state: whether its items and its cells are those of the construction, and whether its items agree on the cells.
#[derive(Clone, Copy)]
struct State {
    items: bool,
    agree: bool,
    cells: bool,
}

// Tells of state q, and flags in `asked` the lookaheads that its items ask.
fn check_state(
    items: &[u8],
    entries: &[u8],
    kernels: &[u8],
    links: &[usize],
    lookaheads: &[u8],
    kinds: &[u8],
    values: &[u8],
    gotos: &[u8],
    named: &[u8],
    uses: &[u8],
    nullable: &[u8],
    first: &[u8],
    starts: &[u8],
    through: &[u8],
    totals: Totals,
    q: usize,
    asked: &mut [u8],
) -> State
    requires table_room { TableRoom items.now entries.now kernels.now lookaheads.now kinds.now values.now gotos.now named.now totals.items totals.rules totals.entries totals.lines }
    requires computed { Computed items.now kernels.now links.now uses.now nullable.now first.now starts.now through.now totals.rules totals.lines totals.codes }
    requires le_q { (1 ≤ q) × (q < 256) × (length asked.old ≡ 65536) }
    ensures asked_len { length asked.new ≡ 65536 }
    ensures state_checked { (g : Grammar) (t : Table) (states : ℕ) → Given g t items.now entries.now kernels.now lookaheads.now kinds.now values.now gotos.now named.now totals.rules totals.entries totals.lines states totals.codes → HoldsUses uses.now g t → q ≤ states
        → StateChecked g t (FirstBy totals.codes nullable.now first.now) kernels.now totals.lines totals.codes q result.items result.agree result.cells asked.old asked.new }
{
    let mut present = [0u8; CODES];
    let mut follow = [0u8; CODES * CODES];
    let mut symbols = [0u8; SYMBOLS];
    let mut demands = [0usize; CODES];
    let mut others = [0usize; CODES];
    closure::close_state(
        items,
        kernels,
        links,
        lookaheads,
        nullable,
        first,
        starts,
        through,
        totals,
        q,
        &mut present,
        &mut follow,
    );
    moves::flag_moves(
        items,
        kernels,
        links,
        &present,
        totals.items,
        totals.rules,
        totals.lines,
        q,
        &mut symbols,
    );
    let fault = check_items::find_item_fault(
        items, entries, kernels, links, kinds, values, gotos, named, &present, &symbols, totals, q,
    );
    let met = check_targets::is_nothing(fault);
    inclusions::add_inclusions(
        items, entries, kernels, links, lookaheads, kinds, values, gotos, uses, nullable, first,
        &present, &follow, totals, q, asked,
    );
    let agree = cells::ask_cells(
        items,
        kernels,
        links,
        lookaheads,
        nullable,
        first,
        &present,
        &follow,
        &symbols,
        totals,
        q,
        &mut demands,
        &mut others,
    );
    let filled = check_cells::cells_meet(&demands, &symbols, kinds, values, gotos, totals.codes, q);
    State {
        items: met,
        agree,
        cells: filled,
    }
}

// The lowest fault so far, where state q is fine or not.
fn note(at: usize, fine: bool, q: usize) -> usize
    ensures { result ≡ noted at fine q }
{
    if at != 0 || fine { at } else { q }
}

// The lowest state whose flag is set; 0 for none.
fn lowest_set(flags: &[u8], states: usize) -> usize
    requires { (states ≤ 255) × (length flags.now ≡ 256) }
    ensures { Fault (Off flags.now) (states + 1) result }
{
    for q in 1..states + 1 {
        if flags[q] != 0 {
            return q;
        }
    }
    0
}

// The reply to the lowest faults.
fn answer(items: usize, narrow: usize, agree: usize, cells: usize) -> Reply
    ensures { result ≡ answer_of items narrow agree cells }
{
    if items != 0 {
        return reply::refuse(Kind::ItemMismatch, items);
    }
    if narrow != 0 {
        return reply::refuse(Kind::MissingLookahead, narrow);
    }
    if agree != 0 {
        return reply::refuse(Kind::Conflict, agree);
    }
    if cells != 0 {
        return reply::refuse(Kind::CellMismatch, cells);
    }
    Reply::Accepted(0)
}

// The lowest states, 0 for none, whose items or cells are not those of the construction, or whose items do not agree on the cells.
#[derive(Clone, Copy)]
struct Faults {
    items: usize,
    agree: usize,
    cells: usize,
}

// Goes over the states, once.
fn check_states(
    items: &[u8],
    entries: &[u8],
    kernels: &[u8],
    links: &[usize],
    lookaheads: &[u8],
    kinds: &[u8],
    values: &[u8],
    gotos: &[u8],
    named: &[u8],
    uses: &[u8],
    nullable: &[u8],
    first: &[u8],
    starts: &[u8],
    through: &[u8],
    totals: Totals,
    asked: &mut [u8],
) -> Faults
    requires table_room { TableRoom items.now entries.now kernels.now lookaheads.now kinds.now values.now gotos.now named.now totals.items totals.rules totals.entries totals.lines }
    requires computed { Computed items.now kernels.now links.now uses.now nullable.now first.now starts.now through.now totals.rules totals.lines totals.codes }
    requires states_bound { (totals.states ≤ 255) × (asked.old ≡ replicate 65536 0) }
    ensures asked_len { length asked.new ≡ 65536 }
    ensures found { (g : Grammar) (t : Table) → Given g t items.now entries.now kernels.now lookaheads.now kinds.now values.now gotos.now named.now totals.rules totals.entries totals.lines totals.states totals.codes → HoldsUses uses.now g t
        → Found g t (FirstBy totals.codes nullable.now first.now) kernels.now totals.lines totals.codes (totals.states + 1) result.items result.agree result.cells asked.new }
{
    let mut faults = Faults {
        items: 0,
        agree: 0,
        cells: 0,
    };
    for q in 1..totals.states + 1 {
        let s = check_state(
            items, entries, kernels, links, lookaheads, kinds, values, gotos, named, uses,
            nullable, first, starts, through, totals, q, asked,
        );
        faults.items = note(faults.items, s.items, q);
        faults.agree = note(faults.agree, s.agree, q);
        faults.cells = note(faults.cells, s.cells, q);
    }
    faults
}

// The reply to a table whose entries are those of the construction; `uses` has the entries that groups use.
fn check_entered(
    items: &[u8],
    entries: &[u8],
    kernels: &[u8],
    lookaheads: &[u8],
    kinds: &[u8],
    values: &[u8],
    gotos: &[u8],
    named: &[u8],
    uses: &[u8],
    totals: Totals,
) -> Reply
    requires table_room { TableRoom items.now entries.now kernels.now lookaheads.now kinds.now values.now gotos.now named.now totals.items totals.rules totals.entries totals.lines }
    requires le_codes { (1 ≤ totals.codes) × (totals.codes ≤ 64) × (totals.states ≤ 255) × (length uses.now ≡ 2048) }
    ensures { (g : Grammar) (t : Table) → Given g t items.now entries.now kernels.now lookaheads.now kinds.now values.now gotos.now named.now totals.rules totals.entries totals.lines totals.states totals.codes → HoldsUses uses.now g t → EntriesMeet g t
        → result ≡ table_verdict g t }
{
    let mut nullable = [0u8; SYMBOLS];
    let mut first = [0u8; SYMBOLS * CODES];
    let mut starts = [0u8; 8192];
    let mut through = [0u8; 128];
    let mut links = [0usize; 1280];
    let mut asked = [0u8; 65536];
    let mut narrow = [0u8; 256];
    analysis::find_sets(
        items,
        totals.codes - 1,
        totals.rules,
        &mut nullable,
        &mut first,
    );
    closure::prepare_rules(
        items,
        &nullable,
        &first,
        totals.items,
        totals.rules,
        totals.codes,
        &mut starts,
        &mut through,
    );
    kernel_lines::link_lines(kernels, totals.lines, totals.items, &mut links);
    let found = check_states(
        items, entries, kernels, &links, lookaheads, kinds, values, gotos, named, uses, &nullable,
        &first, &starts, &through, totals, &mut asked,
    );
    check_lookaheads::ask_goal(
        kernels,
        &links,
        entries,
        totals.lines,
        totals.items,
        totals.rules,
        &mut asked,
    );
    check_lookaheads::mark_narrow(
        kernels,
        &asked,
        lookaheads,
        totals.lines,
        totals.items,
        totals.codes,
        &mut narrow,
    );
    let low = lowest_set(&narrow, totals.states);
    answer(found.items, low, found.agree, found.cells)
}

// The reply to a table in memory.
pub fn check_table(
    items: &[u8],
    entries: &[u8],
    kernels: &[u8],
    lookaheads: &[u8],
    kinds: &[u8],
    values: &[u8],
    gotos: &[u8],
    named: &[u8],
    totals: Totals,
    goal: usize,
) -> Reply
    requires table_room { TableRoom items.now entries.now kernels.now lookaheads.now kinds.now values.now gotos.now named.now totals.items totals.rules totals.entries totals.lines }
    requires le_codes { (1 ≤ totals.codes) × (totals.codes ≤ 64) × (totals.states ≤ 255) }
    ensures { (g : Grammar) (t : Table) → Given g t items.now entries.now kernels.now lookaheads.now kinds.now values.now gotos.now named.now totals.rules totals.entries totals.lines totals.states totals.codes → g.goal ≡ goal
        → result ≡ table_verdict g t }
{
    let mut uses = [0u8; 2048];
    if !check_entries::entries_meet(items, totals.rules, totals.entries, goal, &mut uses) {
        return reply::refuse(Kind::ItemMismatch, 0);
    }
    check_entered(
        items, entries, kernels, lookaheads, kinds, values, gotos, named, &uses, totals,
    )
}

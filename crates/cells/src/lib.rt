// What the items of a state ask of its cells.
// Inner: for the checker, the builder and `explain_states`.
#![tactic(auto)]

ghost use Rattle.std.specs.Prelude.{◌≡◌, true, List, ℕ, suc, ◌+◌, ◌*◌, ◌-◌, ◌<◌, ◌≤◌, length, replicate};
ghost use Rattle.language.specs.Grammar.{Grammar};
ghost use Rattle.leftcorner.specs.Table.{Table};
ghost use Rattle.leftcorner.specs.Construction.{CellsAgree};
ghost use Rattle.items.specs.Layout.{left_at};
ghost use Rattle.fixpoint.specs.Flags.{Decides};
ghost use Rattle.memory.specs.Held.{HoldsTable};
ghost use Rattle.analysis.specs.FirstBy.{FirstBy};
ghost use Rattle.closure.specs.Expansion.{HoldsClosure};
ghost use Rattle.moves.specs.Moves.{Lined, Readable};
ghost use Rattle.moves.specs.Flags.{HoldsMoves};
ghost use Rattle.item_first.specs.Rows.{FirstRoom};
ghost use Rattle.cell_demands.specs.Demands.{Asks};
ghost use Rattle.cells.specs.Demands.{ItemAsks, RuleAsks, LinesAsk, RulesAsk, HoldsAsked, HoldsConflicts};

use cell_demands::{agree, ask_codes};
use memory::Totals;
use symbol::{CODES, Symbol};

// What is asked of a cell, as a number: so many times the action's kind, and its value. 0 is nothing.
pub const VALUES: usize = 256;

pub const SHIFT: usize = 256;
// The value is the rule.
pub const ANNOUNCE: usize = 512;
// The value is the entry's length.
pub const POP: usize = 768;

// Asks what item i with dot k asks, where the flags of its lookaheads stand from `start` on.
pub fn ask_item(
    items: &[u8],
    nullable: &[u8],
    first: &[u8],
    from: &[u8],
    totals: Totals,
    i: usize,
    k: usize,
    start: usize,
    asked: &mut [usize],
    others: &mut [usize],
)
    requires first_room { FirstRoom items.now nullable.now first.now totals.items totals.codes }
    requires i_le_totals { (i ≤ totals.items) × (i < 256) × (k ≤ 15) × (start + 64 ≤ length from.now) }
    requires asked_len { (length asked.old ≡ 64) × (length others.old ≡ 64) }
    ensures { Asks (ItemAsks items.now nullable.now first.now from.now totals.rules totals.codes i k start) asked.old others.old asked.new others.new }
{
    if items::mark_of(items, totals.items, i) == k {
        let mut row = [0u8; CODES];
        item_first::item_first(
            items,
            totals.items,
            i,
            k,
            totals.codes,
            nullable,
            first,
            from,
            start,
            &mut row,
        );
        ask_codes(&row, 0, 0, totals.codes, ANNOUNCE + i, asked, others);
    } else if i > totals.rules && items::length_of(items, totals.items, i) == k {
        ask_codes(from, start, 0, totals.codes, POP + k, asked, others);
    }
}

// Asks what the kernel items of q ask.
fn ask_lines(
    items: &[u8],
    kernels: &[u8],
    links: &[usize],
    lookaheads: &[u8],
    nullable: &[u8],
    first: &[u8],
    totals: Totals,
    q: usize,
    asked: &mut [usize],
    others: &mut [usize],
)
    requires lined { Lined items.now kernels.now links.now totals.items totals.lines }
    requires first_room { FirstRoom items.now nullable.now first.now totals.items totals.codes }
    requires totals_bound { (totals.items < 256) × (q < 256) × (totals.lines * 64 ≤ length lookaheads.now) }
    requires asked_len { (length asked.old ≡ 64) × (length others.old ≡ 64) }
    ensures { Asks (LinesAsk items.now nullable.now first.now kernels.now lookaheads.now totals.rules totals.lines totals.codes q) asked.old others.old asked.new others.new }
{
    let mut p = kernel_lines::last_line(kernels, links, totals.lines, q);
    // Stays a while: it follows the links of the state, and counts nothing.
    while 0 < p {
        let l = p - 1;
        let i = kernel_lines::item_of(kernels, totals.lines, totals.items, l);
        let k = kernel_lines::dot_of(kernels, totals.lines, totals.items, l);
        ask_item(
            items,
            nullable,
            first,
            lookaheads,
            totals,
            i,
            k,
            l * CODES,
            asked,
            others,
        );
        p = kernel_lines::line_before(kernels, links, totals.lines, l);
    }
}

// Asks what rule i asks, which the closure adds.
fn ask_rule(
    items: &[u8],
    nullable: &[u8],
    first: &[u8],
    follow: &[u8],
    totals: Totals,
    i: usize,
    asked: &mut [usize],
    others: &mut [usize],
)
    requires first_room { FirstRoom items.now nullable.now first.now totals.items totals.codes }
    requires i_le_totals { (i ≤ totals.items) × (i < 256) × (64 ≤ left_at items.now i) × (length follow.now ≡ 4096) }
    requires asked_len { (length asked.old ≡ 64) × (length others.old ≡ 64) }
    ensures { Asks (RuleAsks items.now nullable.now first.now follow.now totals.rules totals.codes i) asked.old others.old asked.new others.new }
{
    let left = items::left_of(items, totals.items, i);
    ask_item(
        items,
        nullable,
        first,
        follow,
        totals,
        i,
        0,
        (left - Symbol::FIRST_NONTERMINAL) * CODES,
        asked,
        others,
    );
}

// Asks what the rules ask that the closure adds.
fn ask_rules(
    items: &[u8],
    nullable: &[u8],
    first: &[u8],
    present: &[u8],
    follow: &[u8],
    totals: Totals,
    asked: &mut [usize],
    others: &mut [usize],
)
    requires first_room { FirstRoom items.now nullable.now first.now totals.items totals.codes }
    requires rules_le_totals { (totals.rules ≤ totals.items) × (totals.items < 256) }
    requires present_len { (length present.now ≡ 64) × (length follow.now ≡ 4096) }
    requires asked_len { (length asked.old ≡ 64) × (length others.old ≡ 64) }
    ensures { Asks (RulesAsk items.now nullable.now first.now present.now follow.now totals.rules totals.codes) asked.old others.old asked.new others.new }
{
    for i in 1..totals.rules + 1 {
        if moves::is_present(items, present, totals.items, i) {
            ask_rule(items, nullable, first, follow, totals, i, asked, others);
        }
    }
}

// Fills in what the items of q ask of each code's cell: in `asked` the first action, in `others` the first that differs from it. The answer is
// no where they ask two different actions of one.
pub fn ask_cells(
    items: &[u8],
    kernels: &[u8],
    links: &[usize],
    lookaheads: &[u8],
    nullable: &[u8],
    first: &[u8],
    present: &[u8],
    follow: &[u8],
    moves: &[u8],
    totals: Totals,
    q: usize,
    asked: &mut [usize],
    others: &mut [usize],
) -> bool
    requires readable { Readable items.now kernels.now links.now present.now totals.items totals.rules totals.lines }
    requires first_room { FirstRoom items.now nullable.now first.now totals.items totals.codes }
    requires totals_bound { (totals.items < 256) × (q < 256) × (totals.lines * 64 ≤ length lookaheads.now) }
    requires follow_len { (length follow.now ≡ 4096) × (length moves.now ≡ 128) }
    requires asked_value { (asked.old ≡ replicate 64 0) × (others.old ≡ replicate 64 0) }
    ensures asked_len { (length asked.new ≡ 64) × (length others.new ≡ 64) }
    ensures decides { (g : Grammar) (t : Table) (entries kinds values gotos : List ℕ) (strings : ℕ) → HoldsTable g t items.now entries kernels.now lookaheads.now kinds values gotos totals.rules strings totals.lines → totals.codes ≡ suc g.terminals → HoldsClosure g t (FirstBy totals.codes nullable.now first.now) q present.now follow.now → HoldsMoves g t q moves.now → Decides (CellsAgree g t (FirstBy totals.codes nullable.now first.now) q) result × (result ≡ true → HoldsAsked g t (FirstBy totals.codes nullable.now first.now) q asked.new) × HoldsConflicts g t (FirstBy totals.codes nullable.now first.now) q asked.new others.new }
{
    ask_codes(moves, 0, 1, totals.codes, SHIFT, asked, others);
    ask_lines(
        items, kernels, links, lookaheads, nullable, first, totals, q, asked, others,
    );
    ask_rules(
        items, nullable, first, present, follow, totals, asked, others,
    );
    agree(others)
}

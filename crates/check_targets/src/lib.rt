// The moves from a state, against the kernels of the states that they lead to.
// Inner: for the checker and `explain_states`.
#![tactic(auto)]

ghost use Rattle.std.specs.Prelude.{◌≡◌, ◌+◌, ◌<◌, ◌≤◌, length};
ghost use Rattle.fixpoint.specs.Flags.{Decides};
ghost use Rattle.fixpoint.specs.Misses.{Misses};
ghost use Rattle.memory.specs.Memory.{state_at, item_at, dot_at};
ghost use Rattle.moves.specs.Moves.{Present, MovedAt, Lined, Readable, Cells};
ghost use Rattle.check_targets.specs.Targets.{Arrives, LinesArrive, RulesArrive};
ghost use Rattle.check_targets.specs.Faults.{FindsExtra, MoveFaultIs, no_fault};

use fixpoint::Found;
use memory::Totals;
use symbol::SYMBOLS;

// Why the kernels are not those of the construction, as far as a state tells.
#[derive(Clone, Copy)]
pub enum ItemFault {
    // It is neither the state of an entry nor named as next.
    Unnamed,
    // It is the state of this entry, and does not have its item alone.
    Entry(usize),
    // Its item and dot, which have no line in the next state.
    Lost(usize, usize),
    // A symbol, and a line of the next state for it, to which nothing moves.
    Extra(usize, usize),
    Nothing,
}

// Whether no fault was found.
pub fn is_nothing(fault: ItemFault) -> bool
    ensures { result ≡ no_fault fault }
{
    matches!(fault, ItemFault::Nothing)
}

// Whether item i, dot k of q has its line in the next state, where q has one for the symbol after the dot.
fn arrives(
    items: &[u8],
    kernels: &[u8],
    links: &[usize],
    kinds: &[u8],
    values: &[u8],
    gotos: &[u8],
    totals: Totals,
    q: usize,
    i: usize,
    k: usize,
) -> bool
    requires lined { Lined items.now kernels.now links.now totals.items totals.lines }
    requires cells { Cells kinds.now values.now gotos.now }
    requires q_bound { (q < 256) × (i ≤ totals.items) × (k ≤ 15) }
    ensures { Decides (Arrives items.now kernels.now kinds.now values.now gotos.now totals.lines q i k) result }
{
    let x = moves::symbol_after(items, totals.items, i, k);
    if x == 0 {
        return true;
    }
    let s = moves::next_of(kinds, values, gotos, q, x);
    s == 0 || kernel_lines::has_line(kernels, links, totals.lines, totals.items, s, i, k + 1)
}

// Whether the item of line l arrives from q.
fn line_arrives(
    items: &[u8],
    kernels: &[u8],
    links: &[usize],
    kinds: &[u8],
    values: &[u8],
    gotos: &[u8],
    totals: Totals,
    q: usize,
    l: usize,
) -> bool
    requires lined { Lined items.now kernels.now links.now totals.items totals.lines }
    requires cells { Cells kinds.now values.now gotos.now }
    requires q_bound { (q < 256) × (l < totals.lines) }
    ensures { Decides (Arrives items.now kernels.now kinds.now values.now gotos.now totals.lines q (item_at kernels.now l) (dot_at kernels.now l)) result }
{
    let i = kernel_lines::item_of(kernels, totals.lines, totals.items, l);
    let k = kernel_lines::dot_of(kernels, totals.lines, totals.items, l);
    arrives(items, kernels, links, kinds, values, gotos, totals, q, i, k)
}

// The last kernel line of q whose item does not arrive.
fn find_lost_line(
    items: &[u8],
    kernels: &[u8],
    links: &[usize],
    kinds: &[u8],
    values: &[u8],
    gotos: &[u8],
    totals: Totals,
    q: usize,
) -> Found
    requires lined { Lined items.now kernels.now links.now totals.items totals.lines }
    requires cells { Cells kinds.now values.now gotos.now }
    requires q_bound { q < 256 }
    ensures { Misses (λ l. state_at kernels.now l ≡ q) (λ l. Arrives items.now kernels.now kinds.now values.now gotos.now totals.lines q (item_at kernels.now l) (dot_at kernels.now l)) 0 totals.lines result }
{
    let mut p = kernel_lines::last_line(kernels, links, totals.lines, q);
    // Stays a `while`: each line's link names the next one, so there is no range or slice to go over.
    while 0 < p {
        let l = p - 1;
        if !line_arrives(items, kernels, links, kinds, values, gotos, totals, q, l) {
            return Found::At(l);
        }
        p = kernel_lines::line_before(kernels, links, totals.lines, l);
    }
    Found::Nothing
}

// The first rule that q's closure adds and that does not arrive.
fn find_lost_rule(
    items: &[u8],
    kernels: &[u8],
    links: &[usize],
    kinds: &[u8],
    values: &[u8],
    gotos: &[u8],
    present: &[u8],
    totals: Totals,
    q: usize,
) -> Found
    requires readable { Readable items.now kernels.now links.now present.now totals.items totals.rules totals.lines }
    requires cells { Cells kinds.now values.now gotos.now }
    requires q_bound { q < 256 }
    ensures { Misses (Present items.now present.now) (λ i. Arrives items.now kernels.now kinds.now values.now gotos.now totals.lines q i 0) 1 (totals.rules + 1) result }
{
    for i in 1..totals.rules + 1 {
        if moves::is_present(items, present, totals.items, i)
            && !arrives(items, kernels, links, kinds, values, gotos, totals, q, i, 0)
        {
            return Found::At(i);
        }
    }
    Found::Nothing
}

// The last line of s that did not come by a move from q on x.
fn find_stray(
    items: &[u8],
    kernels: &[u8],
    links: &[usize],
    present: &[u8],
    totals: Totals,
    q: usize,
    x: usize,
    s: usize,
) -> Found
    requires readable { Readable items.now kernels.now links.now present.now totals.items totals.rules totals.lines }
    requires q_bound { (q < 256) × (s < 256) }
    ensures { Misses (λ l. state_at kernels.now l ≡ s) (λ l. MovedAt items.now kernels.now present.now totals.rules totals.lines q x (item_at kernels.now l) (dot_at kernels.now l)) 0 totals.lines result }
{
    let mut p = kernel_lines::last_line(kernels, links, totals.lines, s);
    // Stays a `while`: each line's link names the next one, so there is no range or slice to go over.
    while 0 < p {
        let l = p - 1;
        if !moves::line_came(
            items,
            kernels,
            links,
            present,
            totals.items,
            totals.rules,
            totals.lines,
            q,
            x,
            l,
        ) {
            return Found::At(l);
        }
        p = kernel_lines::line_before(kernels, links, totals.lines, l);
    }
    Found::Nothing
}

// A line of q's next state for x to which nothing moves, where something moves on x.
fn find_extra_at(
    items: &[u8],
    kernels: &[u8],
    links: &[usize],
    kinds: &[u8],
    values: &[u8],
    gotos: &[u8],
    present: &[u8],
    symbols: &[u8],
    totals: Totals,
    q: usize,
    x: usize,
) -> Found
    requires readable { Readable items.now kernels.now links.now present.now totals.items totals.rules totals.lines }
    requires cells { Cells kinds.now values.now gotos.now }
    requires symbols_len { (length symbols.now ≡ 128) × (q < 256) × (x < 128) }
    ensures { FindsExtra items.now kernels.now present.now symbols.now kinds.now values.now gotos.now totals.rules totals.lines q x result }
{
    if symbols[x] == 0 {
        return Found::Nothing;
    }
    let s = moves::next_of(kinds, values, gotos, q, x);
    if s == 0 {
        return Found::Nothing;
    }
    find_stray(items, kernels, links, present, totals, q, x, s)
}

// The first symbol with such a line, where all of q's items arrive.
fn find_extra(
    items: &[u8],
    kernels: &[u8],
    links: &[usize],
    kinds: &[u8],
    values: &[u8],
    gotos: &[u8],
    present: &[u8],
    symbols: &[u8],
    totals: Totals,
    q: usize,
) -> ItemFault
    requires readable { Readable items.now kernels.now links.now present.now totals.items totals.rules totals.lines }
    requires cells { Cells kinds.now values.now gotos.now }
    requires symbols_len { (length symbols.now ≡ 128) × (q < 256) }
    ensures { LinesArrive items.now kernels.now kinds.now values.now gotos.now totals.lines q → RulesArrive items.now kernels.now present.now kinds.now values.now gotos.now totals.rules totals.lines q → MoveFaultIs items.now kernels.now present.now symbols.now kinds.now values.now gotos.now totals.items totals.rules totals.lines q result }
{
    for x in 1..SYMBOLS {
        if let Found::At(l) = find_extra_at(
            items, kernels, links, kinds, values, gotos, present, symbols, totals, q, x,
        ) {
            return ItemFault::Extra(x, l);
        }
    }
    ItemFault::Nothing
}

// What is wrong with the next states of q.
pub fn find_move_fault(
    items: &[u8],
    kernels: &[u8],
    links: &[usize],
    kinds: &[u8],
    values: &[u8],
    gotos: &[u8],
    present: &[u8],
    symbols: &[u8],
    totals: Totals,
    q: usize,
) -> ItemFault
    requires readable { Readable items.now kernels.now links.now present.now totals.items totals.rules totals.lines }
    requires cells { Cells kinds.now values.now gotos.now }
    requires symbols_len { (length symbols.now ≡ 128) × (q < 256) }
    ensures { MoveFaultIs items.now kernels.now present.now symbols.now kinds.now values.now gotos.now totals.items totals.rules totals.lines q result }
{
    if let Found::At(l) = find_lost_line(items, kernels, links, kinds, values, gotos, totals, q) {
        let i = kernel_lines::item_of(kernels, totals.lines, totals.items, l);
        let k = kernel_lines::dot_of(kernels, totals.lines, totals.items, l);
        return ItemFault::Lost(i, k);
    }
    if let Found::At(i) = find_lost_rule(
        items, kernels, links, kinds, values, gotos, present, totals, q,
    ) {
        return ItemFault::Lost(i, 0);
    }
    find_extra(
        items, kernels, links, kinds, values, gotos, present, symbols, totals, q,
    )
}

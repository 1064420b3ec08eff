// Why the kernels at a state are not those of the construction.
// Inner: for the checker and `explain_states`.
#![tactic(auto)]

ghost use Rattle.std.specs.Prelude.{◌≡◌, ◌+◌, ◌<◌, ◌≤◌, length};
ghost use Rattle.fixpoint.specs.Flags.{Decides};
ghost use Rattle.fixpoint.specs.Misses.{Any, Misses};
ghost use Rattle.kernel_lines.specs.Lines.{Lines, Linked};
ghost use Rattle.moves.specs.Moves.{Readable, Cells};
ghost use Rattle.check_items.specs.Items.{OnlyItem, EntryMeets, ItemFaultIs};

use check_targets::ItemFault;
use fixpoint::Found;
use memory::Totals;

// Whether every line of q is that of item i, dot 0.
fn only_item(
    kernels: &[u8],
    links: &[usize],
    lines: usize,
    count: usize,
    q: usize,
    i: usize,
) -> bool
    requires lines { Lines kernels.now lines count }
    requires linked { Linked kernels.now links.now lines }
    requires q_bound { q < 256 }
    ensures { Decides (OnlyItem kernels.now lines q i) result }
{
    let mut p = kernel_lines::last_line(kernels, links, lines, q);
    // Stays a `while`: each line's link names the next one, so there is no range or slice to go over.
    while 0 < p {
        let l = p - 1;
        if !kernel_lines::is_of(kernels, lines, count, l, i, 0) {
            return false;
        }
        p = kernel_lines::line_before(kernels, links, lines, l);
    }
    true
}

// Whether q, where it is the state of entry k, has that entry's item and only that.
fn entry_meets(
    entries: &[u8],
    kernels: &[u8],
    links: &[usize],
    rules: usize,
    lines: usize,
    count: usize,
    q: usize,
    k: usize,
) -> bool
    requires lines { Lines kernels.now lines count }
    requires linked { Linked kernels.now links.now lines }
    requires q_bound { (q < 256) × (rules ≤ 127) × (k ≤ 127) × (k < length entries.now) }
    ensures { Decides (EntryMeets entries.now kernels.now rules lines q k) result }
{
    entries[k] as usize != q
        || kernel_lines::has_line(kernels, links, lines, count, q, rules + k, 0)
            && only_item(kernels, links, lines, count, q, rules + k)
}

// The first entry whose state q is, and whose item q does not have alone.
fn find_entry_at(
    entries: &[u8],
    kernels: &[u8],
    links: &[usize],
    rules: usize,
    strings: usize,
    lines: usize,
    count: usize,
    q: usize,
) -> Found
    requires lines { Lines kernels.now lines count }
    requires linked { Linked kernels.now links.now lines }
    requires q_bound { (q < 256) × (rules ≤ 127) × (strings ≤ 127) × (strings < length entries.now) }
    ensures { Misses Any (EntryMeets entries.now kernels.now rules lines q) 1 (strings + 1) result }
{
    for k in 1..strings + 1 {
        if !entry_meets(entries, kernels, links, rules, lines, count, q, k) {
            return Found::At(k);
        }
    }
    Found::Nothing
}

// What is wrong with the kernels, as far as q tells.
pub fn find_item_fault(
    items: &[u8],
    entries: &[u8],
    kernels: &[u8],
    links: &[usize],
    kinds: &[u8],
    values: &[u8],
    gotos: &[u8],
    named: &[u8],
    present: &[u8],
    symbols: &[u8],
    totals: Totals,
    q: usize,
) -> ItemFault
    requires readable { Readable items.now kernels.now links.now present.now totals.items totals.rules totals.lines }
    requires cells { Cells kinds.now values.now gotos.now }
    requires q_in_bounds { (q < length named.now) × (length symbols.now ≡ 128) }
    requires q_bound { (q < 256) × (totals.rules ≤ 127) × (totals.entries ≤ 127) × (totals.entries < length entries.now) }
    ensures { ItemFaultIs items.now entries.now kernels.now kinds.now values.now gotos.now named.now present.now symbols.now totals.items totals.rules totals.entries totals.lines q result }
{
    if named[q] == 0 {
        return ItemFault::Unnamed;
    }
    if let Found::At(k) = find_entry_at(
        entries,
        kernels,
        links,
        totals.rules,
        totals.entries,
        totals.lines,
        totals.items,
        q,
    ) {
        return ItemFault::Entry(k);
    }
    check_targets::find_move_fault(
        items, kernels, links, kinds, values, gotos, present, symbols, totals, q,
    )
}

// What the items of a state ask of the lookaheads of others, added as flags at line * 64 + code.
// Inner: for the checker and the builder.
#![tactic(auto)]

ghost use Rattle.std.specs.Prelude.{◌≡◌, ℕ, suc, ◌+◌, ◌*◌, ◌<◌, ◌≤◌, length};
ghost use Rattle.language.specs.Grammar.{Grammar};
ghost use Rattle.leftcorner.specs.Table.{Table};
ghost use Rattle.items.specs.Layout.{left_at};
ghost use Rattle.memory.specs.Held.{HoldsTable};
ghost use Rattle.kernel_lines.specs.Lines.{Lines, Linked};
ghost use Rattle.analysis.specs.Adds.{Adds};
ghost use Rattle.closure.specs.Kernel.{OfLine};
ghost use Rattle.analysis.specs.FirstBy.{FirstBy};
ghost use Rattle.closure.specs.Expansion.{HoldsClosure};
ghost use Rattle.moves.specs.Moves.{Lined, Cells};
ghost use Rattle.check_entries.specs.Uses.{HoldsUses};
ghost use Rattle.inclusions.specs.Asks.{LineAsks, LinesAsk, MoveAsks, GroupAsks, GroupsAsk, ItemAsks, KernelAsks, RuleAsks, RulesAsk, StateAsks, Sourced};
ghost use Rattle.inclusions.specs.Included.{Includes, FlagAsked};

use memory::Totals;
use symbol::{CODES, Symbol};

// Asks of line l, if it is that of item i, dot k, the codes that are flagged from `start` on.
fn add_line(
    kernels: &[u8],
    from: &[u8],
    lines: usize,
    count: usize,
    codes: usize,
    l: usize,
    i: usize,
    k: usize,
    start: usize,
    included: &mut [u8],
)
    requires lines { Lines kernels.now lines count }
    requires l_lt_lines { (l < lines) × (codes ≤ 64) × (start + 64 ≤ length from.now) × (lines * 64 ≤ length included.old) }
    ensures { Adds (LineAsks kernels.now from.now codes i k start l) included.old included.new }
{
    if kernel_lines::is_of(kernels, lines, count, l, i, k) {
        analysis::add_codes(from, start, codes, included, l * CODES);
    }
}

// Asks of the line for item i, dot k in state s, if there is one, the codes that are flagged from `start` on.
pub fn add_lines(
    kernels: &[u8],
    links: &[usize],
    from: &[u8],
    lines: usize,
    count: usize,
    codes: usize,
    s: usize,
    i: usize,
    k: usize,
    start: usize,
    included: &mut [u8],
)
    requires lines { Lines kernels.now lines count }
    requires linked { Linked kernels.now links.now lines }
    requires s_bound { (s < 256) × (codes ≤ 64) × (start + 64 ≤ length from.now) × (lines * 64 ≤ length included.old) }
    ensures { Adds (LinesAsk kernels.now from.now lines codes s i k start) included.old included.new }
{
    let mut p = kernel_lines::last_line(kernels, links, lines, s);
    // Stays a `while`: each line's link names the next one, so there is no range or slice to go over.
    while 0 < p {
        let l = p - 1;
        add_line(kernels, from, lines, count, codes, l, i, k, start, included);
        p = kernel_lines::line_before(kernels, links, lines, l);
    }
}

// An item with its dot, and where the flags of its lookaheads start.
#[derive(Clone, Copy)]
struct DottedItem {
    item: usize,
    dot: usize,
    start: usize,
}

// What an item of p asks of the next state.
fn add_move(
    items: &[u8],
    kernels: &[u8],
    links: &[usize],
    kinds: &[u8],
    values: &[u8],
    gotos: &[u8],
    from: &[u8],
    totals: Totals,
    p: usize,
    at: DottedItem,
    asked: &mut [u8],
)
    requires lined { Lined items.now kernels.now links.now totals.items totals.lines }
    requires cells { Cells kinds.now values.now gotos.now }
    requires codes_bound { (totals.codes ≤ 64) × (p < 256) × (at.item ≤ totals.items) × (at.dot ≤ 15) × (at.start + 64 ≤ length from.now) × (totals.lines * 64 ≤ length asked.old) }
    ensures { Adds (MoveAsks items.now kernels.now kinds.now values.now gotos.now from.now totals.lines totals.codes p at.item at.dot at.start) asked.old asked.new }
{
    let x = moves::symbol_after(items, totals.items, at.item, at.dot);
    if x == 0 {
        return;
    }
    let s = moves::next_of(kinds, values, gotos, p, x);
    if s == 0 {
        return;
    }
    add_lines(
        kernels,
        links,
        from,
        totals.lines,
        totals.items,
        totals.codes,
        s,
        at.item,
        at.dot + 1,
        at.start,
        asked,
    );
}

// What a group of an item asks of entry e, where it ends before the dot.
fn add_group(
    items: &[u8],
    entries: &[u8],
    kernels: &[u8],
    links: &[usize],
    uses: &[u8],
    nullable: &[u8],
    first: &[u8],
    from: &[u8],
    totals: Totals,
    at: DottedItem,
    e: usize,
    asked: &mut [u8],
)
    requires sourced { Sourced items.now kernels.now links.now entries.now uses.now nullable.now first.now totals.items totals.rules totals.lines totals.codes }
    requires item_le_totals { (at.item ≤ totals.items) × (e < 256) × (at.start + 64 ≤ length from.now) × (totals.lines * 64 ≤ length asked.old) }
    ensures { Adds (GroupAsks items.now kernels.now entries.now nullable.now first.now from.now totals.rules totals.lines totals.codes at.item at.dot e at.start) asked.old asked.new }
{
    if e == 0 {
        return;
    }
    let mut row = [0u8; CODES];
    item_first::item_first(
        items,
        totals.items,
        at.item,
        at.dot,
        totals.codes,
        nullable,
        first,
        from,
        at.start,
        &mut row,
    );
    add_lines(
        kernels,
        links,
        &row,
        totals.lines,
        totals.items,
        totals.codes,
        entries[e] as usize,
        totals.rules + e,
        0,
        0,
        asked,
    );
}

// What the groups of rule i ask.
fn add_groups(
    items: &[u8],
    entries: &[u8],
    kernels: &[u8],
    links: &[usize],
    uses: &[u8],
    nullable: &[u8],
    first: &[u8],
    from: &[u8],
    totals: Totals,
    i: usize,
    start: usize,
    asked: &mut [u8],
)
    requires sourced { Sourced items.now kernels.now links.now entries.now uses.now nullable.now first.now totals.items totals.rules totals.lines totals.codes }
    requires i_le_rules { (i ≤ totals.rules) × (start + 64 ≤ length from.now) × (totals.lines * 64 ≤ length asked.old) }
    ensures { Adds (GroupsAsk items.now kernels.now entries.now uses.now nullable.now first.now from.now totals.rules totals.lines totals.codes i start) asked.old asked.new }
{
    let n = items::length_of(items, totals.items, i);
    let mut a = items::mark_of(items, totals.items, i);
    let mut j: usize = 0;
    // Stays a `while`: groups differ in length, so the place and the group's number move by different steps.
    while a < n {
        let b = item_groups::group_end(items, totals.items, i, a, n);
        let e = uses[i * 16 + j] as usize;
        add_group(
            items,
            entries,
            kernels,
            links,
            uses,
            nullable,
            first,
            from,
            totals,
            DottedItem {
                item: i,
                dot: b,
                start,
            },
            e,
            asked,
        );
        a = b;
        j += 1;
    }
}

// What an item of p asks.
fn add_item(
    items: &[u8],
    entries: &[u8],
    kernels: &[u8],
    links: &[usize],
    kinds: &[u8],
    values: &[u8],
    gotos: &[u8],
    uses: &[u8],
    nullable: &[u8],
    first: &[u8],
    from: &[u8],
    totals: Totals,
    p: usize,
    at: DottedItem,
    asked: &mut [u8],
)
    requires sourced { Sourced items.now kernels.now links.now entries.now uses.now nullable.now first.now totals.items totals.rules totals.lines totals.codes }
    requires cells { Cells kinds.now values.now gotos.now }
    requires p_bound { (p < 256) × (at.item ≤ totals.items) × (at.dot ≤ 15) × (at.start + 64 ≤ length from.now) × (totals.lines * 64 ≤ length asked.old) }
    ensures { Adds (ItemAsks items.now kernels.now kinds.now values.now gotos.now entries.now uses.now nullable.now first.now from.now totals.rules totals.lines totals.codes p at.item at.dot at.start) asked.old asked.new }
{
    add_move(
        items, kernels, links, kinds, values, gotos, from, totals, p, at, asked,
    );
    if at.item <= totals.rules && items::mark_of(items, totals.items, at.item) == at.dot {
        add_groups(
            items, entries, kernels, links, uses, nullable, first, from, totals, at.item, at.start,
            asked,
        );
    }
}

// What the kernel items of p ask.
fn add_kernel(
    items: &[u8],
    entries: &[u8],
    kernels: &[u8],
    links: &[usize],
    lookaheads: &[u8],
    kinds: &[u8],
    values: &[u8],
    gotos: &[u8],
    uses: &[u8],
    nullable: &[u8],
    first: &[u8],
    totals: Totals,
    p: usize,
    asked: &mut [u8],
)
    requires sourced { Sourced items.now kernels.now links.now entries.now uses.now nullable.now first.now totals.items totals.rules totals.lines totals.codes }
    requires cells { Cells kinds.now values.now gotos.now }
    requires p_bound { (p < 256) × (totals.lines * 64 ≤ length lookaheads.now) × (totals.lines * 64 ≤ length asked.old) }
    ensures { Adds (OfLine (KernelAsks items.now kernels.now lookaheads.now kinds.now values.now gotos.now entries.now uses.now nullable.now first.now totals.rules totals.lines totals.codes p) kernels.now totals.lines p) asked.old asked.new }
{
    let mut next = kernel_lines::last_line(kernels, links, totals.lines, p);
    // Stays a `while`: each line's link names the next one, so there is no range or slice to go over.
    while 0 < next {
        let l = next - 1;
        let item = kernel_lines::item_of(kernels, totals.lines, totals.items, l);
        let dot = kernel_lines::dot_of(kernels, totals.lines, totals.items, l);
        let start = l * CODES;
        add_item(
            items,
            entries,
            kernels,
            links,
            kinds,
            values,
            gotos,
            uses,
            nullable,
            first,
            lookaheads,
            totals,
            p,
            DottedItem { item, dot, start },
            asked,
        );
        next = kernel_lines::line_before(kernels, links, totals.lines, l);
    }
}

// What rule i asks, which p's closure adds.
fn add_rule(
    items: &[u8],
    entries: &[u8],
    kernels: &[u8],
    links: &[usize],
    kinds: &[u8],
    values: &[u8],
    gotos: &[u8],
    uses: &[u8],
    nullable: &[u8],
    first: &[u8],
    follow: &[u8],
    totals: Totals,
    p: usize,
    i: usize,
    asked: &mut [u8],
)
    requires sourced { Sourced items.now kernels.now links.now entries.now uses.now nullable.now first.now totals.items totals.rules totals.lines totals.codes }
    requires cells { Cells kinds.now values.now gotos.now }
    requires p_bound { (p < 256) × (i ≤ totals.items) × (64 ≤ left_at items.now i) × (length follow.now ≡ 4096) × (totals.lines * 64 ≤ length asked.old) }
    ensures { Adds (RuleAsks items.now kernels.now kinds.now values.now gotos.now entries.now uses.now nullable.now first.now follow.now totals.rules totals.lines totals.codes p i) asked.old asked.new }
{
    let left = items::left_of(items, totals.items, i);
    let start = (left - Symbol::FIRST_NONTERMINAL) * CODES;
    add_item(
        items,
        entries,
        kernels,
        links,
        kinds,
        values,
        gotos,
        uses,
        nullable,
        first,
        follow,
        totals,
        p,
        DottedItem {
            item: i,
            dot: 0,
            start,
        },
        asked,
    );
}

// What the rules ask that p's closure adds.
fn add_rules(
    items: &[u8],
    entries: &[u8],
    kernels: &[u8],
    links: &[usize],
    kinds: &[u8],
    values: &[u8],
    gotos: &[u8],
    uses: &[u8],
    nullable: &[u8],
    first: &[u8],
    present: &[u8],
    follow: &[u8],
    totals: Totals,
    p: usize,
    asked: &mut [u8],
)
    requires sourced { Sourced items.now kernels.now links.now entries.now uses.now nullable.now first.now totals.items totals.rules totals.lines totals.codes }
    requires cells { Cells kinds.now values.now gotos.now }
    requires p_bound { (p < 256) × (length present.now ≡ 64) × (length follow.now ≡ 4096) × (totals.lines * 64 ≤ length asked.old) }
    ensures { Adds (RulesAsk items.now kernels.now kinds.now values.now gotos.now entries.now uses.now nullable.now first.now present.now follow.now totals.rules totals.lines totals.codes p) asked.old asked.new }
{
    for i in 1..totals.rules + 1 {
        if moves::is_present(items, present, totals.items, i) {
            add_rule(
                items, entries, kernels, links, kinds, values, gotos, uses, nullable, first,
                follow, totals, p, i, asked,
            );
        }
    }
}

// Sets the flags of all that the items of p ask.
pub fn add_inclusions(
    items: &[u8],
    entries: &[u8],
    kernels: &[u8],
    links: &[usize],
    lookaheads: &[u8],
    kinds: &[u8],
    values: &[u8],
    gotos: &[u8],
    uses: &[u8],
    nullable: &[u8],
    first: &[u8],
    present: &[u8],
    follow: &[u8],
    totals: Totals,
    p: usize,
    asked: &mut [u8],
)
    requires sourced { Sourced items.now kernels.now links.now entries.now uses.now nullable.now first.now totals.items totals.rules totals.lines totals.codes }
    requires cells { Cells kinds.now values.now gotos.now }
    requires p_bound { (p < 256) × (length present.now ≡ 64) × (length follow.now ≡ 4096) × (totals.lines * 64 ≤ length lookaheads.now) × (totals.lines * 64 ≤ length asked.old) }
    ensures adds { Adds (StateAsks items.now kernels.now lookaheads.now kinds.now values.now gotos.now entries.now uses.now nullable.now first.now present.now follow.now totals.rules totals.lines totals.codes p) asked.old asked.new }
    ensures adds_2 { (g : Grammar) (t : Table) (strings : ℕ) → HoldsTable g t items.now entries.now kernels.now lookaheads.now kinds.now values.now gotos.now totals.rules strings totals.lines → totals.codes ≡ suc g.terminals → HoldsClosure g t (FirstBy totals.codes nullable.now first.now) p present.now follow.now → HoldsUses uses.now g t → Adds (FlagAsked (Includes g t (FirstBy totals.codes nullable.now first.now) p) kernels.now totals.lines totals.codes) asked.old asked.new }
{
    add_kernel(
        items, entries, kernels, links, lookaheads, kinds, values, gotos, uses, nullable, first,
        totals, p, asked,
    );
    add_rules(
        items, entries, kernels, links, kinds, values, gotos, uses, nullable, first, present,
        follow, totals, p, asked,
    );
}

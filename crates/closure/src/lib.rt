// The closure of a state, computed from tables in memory.
// Inner: for the checker and the builder.
#![tactic(auto)]

ghost use Rattle.std.specs.Prelude.{◌≡◌, ℕ, ◌+◌, ◌*◌, ◌<◌, ◌≤◌, length, replicate};
ghost use Rattle.items.specs.Layout.{Shaped};
ghost use Rattle.fixpoint.specs.Flags.{On, Marks, Decides};
ghost use Rattle.fixpoint.specs.Least.{Least};
ghost use Rattle.language.specs.Grammar.{Grammar};
ghost use Rattle.leftcorner.specs.Table.{Table};
ghost use Rattle.closure.specs.Expansion.{HoldsClosure};
ghost use Rattle.analysis.specs.FirstBy.{FirstBy};
ghost use Rattle.kernel_lines.specs.Lines.{Lines, Linked};
ghost use Rattle.closure.specs.InMemory.{InMemory};
ghost use Rattle.analysis.specs.Rests.{Before};
ghost use Rattle.analysis.specs.Adds.{Adds};
ghost use Rattle.closure.specs.Prepared.{Prepared};
ghost use Rattle.closure.specs.Kernel.{BeforeNonterminal, FollowsNonterminal, KernelBefore, KernelFollows};
ghost use Rattle.closure.specs.Steps.{expansions, followings, LeftIn, FirstIs, Fires, Covered};

use memory::Totals;
use symbol::{CODES, Symbol};

// Whether item i's dot k stands before a symbol, and not at its recognition point.
pub fn stands_before(items: &[u8], count: usize, i: usize, k: usize) -> bool
    requires shaped { Shaped items.now count }
    requires i_le_count { i ≤ count }
    ensures { Decides (Before items.now i k) result }
{
    k < items::length_of(items, count, i) && items::mark_of(items, count, i) != k
}

// Fills in, for each rule, what can begin after its first symbol: once, for the closures of all states.
pub fn prepare_rules(
    items: &[u8],
    nullable: &[u8],
    first: &[u8],
    count: usize,
    rules: usize,
    codes: usize,
    starts: &mut [u8],
    through: &mut [u8],
)
    requires shaped { Shaped items.now count }
    requires rules_le_count { (rules ≤ count) × (rules ≤ 127) × (codes ≤ 64) }
    requires nullable_len { (length nullable.now ≡ 128) × (length first.now ≡ 8192) }
    requires starts_len { (length starts.old ≡ 8192) × (length through.old ≡ 128) }
    ensures { Prepared items.now (rules + 1) codes nullable.now first.now starts.new through.new }
{
    reply::clear(starts);
    reply::clear(through);
    for i in 1..rules + 1 {
        if analysis::rest_first(
            items,
            count,
            i,
            1,
            codes,
            nullable,
            first,
            starts,
            i * CODES,
        ) {
            through[i] = 1;
        }
    }
}

// What item i with dot k adds to its state's closure, where its lookaheads stand from `start` on.
fn add_item(
    items: &[u8],
    lookaheads: &[u8],
    nullable: &[u8],
    first: &[u8],
    count: usize,
    codes: usize,
    i: usize,
    k: usize,
    start: usize,
    present: &mut [u8],
    follow: &mut [u8],
)
    requires shaped { Shaped items.now count }
    requires i_le_count { (i ≤ count) × (codes ≤ 64) × (start + 64 ≤ length lookaheads.now) }
    requires nullable_len { (length nullable.now ≡ 128) × (length first.now ≡ 8192) }
    requires present_len { (length present.old ≡ 64) × (length follow.old ≡ 4096) }
    ensures adds { Adds (BeforeNonterminal items.now i k) present.old present.new }
    ensures adds_2 { Adds (FollowsNonterminal items.now codes nullable.now first.now lookaheads.now start i k) follow.old follow.new }
{
    if !stands_before(items, count, i, k) {
        return;
    }
    let x = items::symbol_of(items, count, i, k);
    if x < Symbol::FIRST_NONTERMINAL {
        return;
    }
    let b = x - Symbol::FIRST_NONTERMINAL;
    present[b] = 1;
    if analysis::any_code(lookaheads, start, codes)
        && analysis::rest_first(
            items,
            count,
            i,
            k + 1,
            codes,
            nullable,
            first,
            follow,
            b * CODES,
        )
    {
        analysis::add_codes(lookaheads, start, codes, follow, b * CODES);
    }
}

// What the kernel lines of state q add to its closure.
fn add_kernel(
    items: &[u8],
    kernels: &[u8],
    links: &[usize],
    lookaheads: &[u8],
    nullable: &[u8],
    first: &[u8],
    totals: Totals,
    q: usize,
    present: &mut [u8],
    follow: &mut [u8],
)
    requires shaped { Shaped items.now totals.items }
    requires lines { Lines kernels.now totals.lines totals.items }
    requires linked { Linked kernels.now links.now totals.lines }
    requires lines_in_bounds { (totals.lines * 64 ≤ length lookaheads.now) × (totals.codes ≤ 64) × (q < 256) }
    requires nullable_len { (length nullable.now ≡ 128) × (length first.now ≡ 8192) }
    requires present_len { (length present.old ≡ 64) × (length follow.old ≡ 4096) }
    ensures adds { Adds (KernelBefore items.now kernels.now totals.lines q) present.old present.new }
    ensures adds_2 { Adds (KernelFollows items.now totals.codes nullable.now first.now kernels.now lookaheads.now totals.lines q) follow.old follow.new }
{
    let mut p = kernel_lines::last_line(kernels, links, totals.lines, q);
    // Stays a while: it follows the links of the state, and counts nothing.
    while 0 < p {
        let l = p - 1;
        let i = kernel_lines::item_of(kernels, totals.lines, totals.items, l);
        let k = kernel_lines::dot_of(kernels, totals.lines, totals.items, l);
        add_item(
            items,
            lookaheads,
            nullable,
            first,
            totals.items,
            totals.codes,
            i,
            k,
            l * CODES,
            present,
            follow,
        );
        p = kernel_lines::line_before(kernels, links, totals.lines, l);
    }
}

// Whether the left side of rule i is a nonterminal that is flagged.
fn left_in(items: &[u8], present: &[u8], count: usize, i: usize) -> bool
    requires shaped { Shaped items.now count }
    requires i_le_count { i ≤ count }
    requires present_len { length present.now ≡ 64 }
    ensures { Decides (LeftIn items.now i present.now) result }
{
    let x = items::left_of(items, count, i);
    x >= Symbol::FIRST_NONTERMINAL && present[x - Symbol::FIRST_NONTERMINAL] != 0
}

// The nonterminal, less 64, that rule i begins with before its recognition point; 64 for none.
fn first_nonterminal(items: &[u8], count: usize, i: usize) -> usize
    requires shaped { Shaped items.now count }
    requires i_le_count { i ≤ count }
    ensures { FirstIs items.now i result }
{
    if !stands_before(items, count, i, 0) {
        return CODES;
    }
    let x = items::symbol_of(items, count, i, 0);
    if x < Symbol::FIRST_NONTERMINAL {
        return CODES;
    }
    x - Symbol::FIRST_NONTERMINAL
}

// Flags what the rules of flagged nonterminals begin with, until a pass adds nothing.
pub fn close_present(items: &[u8], count: usize, rules: usize, present: &mut [u8])
    requires shaped { Shaped items.now count }
    requires rules_le_count { rules ≤ count }
    requires present_len { length present.old ≡ 64 }
    ensures { Marks (Least (expansions items.now rules) (On present.old)) present.new }
{
    'passes: loop {
        let mut added: usize = 0;
        'rules: for i in 1..rules + 1 {
            if !left_in(items, present, count, i) {
                continue;
            }
            let b = first_nonterminal(items, count, i);
            if b < CODES && present[b] == 0 {
                present[b] = 1;
                added += 1;
            }
        }
        if added == 0 {
            break 'passes;
        }
    }
}

// Whether code c can follow what rule i begins with, where something can follow its left side, 64 + a.
fn fires(starts: &[u8], through: &[u8], follow: &[u8], i: usize, a: usize, c: usize) -> bool
    requires starts_len { (length starts.now ≡ 8192) × (length through.now ≡ 128) × (length follow.now ≡ 4096) }
    requires i_bound { (i ≤ 127) × (a < 64) × (c < 64) }
    ensures { Decides (Fires starts.now through.now follow.now i a c) result }
{
    starts[i * CODES + c] != 0 || through[i] != 0 && follow[a * CODES + c] != 0
}

// Flags what can follow the nonterminals that rules begin with, until a pass adds nothing.
fn close_follow(
    items: &[u8],
    starts: &[u8],
    through: &[u8],
    present: &[u8],
    count: usize,
    rules: usize,
    codes: usize,
    follow: &mut [u8],
)
    requires shaped { Shaped items.now count }
    requires rules_le_count { (rules ≤ count) × (rules ≤ 127) × (codes ≤ 64) }
    requires starts_len { (length starts.now ≡ 8192) × (length through.now ≡ 128) }
    requires present_len { (length present.now ≡ 64) × (length follow.old ≡ 4096) }
    requires covered { Covered items.now rules codes present.now follow.old }
    ensures { Marks (Least (followings items.now rules codes starts.now through.now) (On follow.old)) follow.new }
{
    'passes: loop {
        let mut added: usize = 0;
        'rules: for i in 1..rules + 1 {
            if !left_in(items, present, count, i) {
                continue;
            }
            let b = first_nonterminal(items, count, i);
            if b >= CODES {
                continue;
            }
            let a = items::left_of(items, count, i) - Symbol::FIRST_NONTERMINAL;
            if !analysis::any_code(follow, a * CODES, codes) {
                continue;
            }
            'codes: for c in 0..codes {
                if follow[b * CODES + c] == 0 && fires(starts, through, follow, i, a, c) {
                    follow[b * CODES + c] = 1;
                    added += 1;
                }
            }
        }
        if added == 0 {
            break 'passes;
        }
    }
}

// The closure of state q: which nonterminals are expanded in it, and which codes can follow each. Both slices come as zeros.
pub fn close_state(
    items: &[u8],
    kernels: &[u8],
    links: &[usize],
    lookaheads: &[u8],
    nullable: &[u8],
    first: &[u8],
    starts: &[u8],
    through: &[u8],
    totals: Totals,
    q: usize,
    present: &mut [u8],
    follow: &mut [u8],
)
    requires shaped { Shaped items.now totals.items }
    requires rules_le_totals { (totals.rules ≤ totals.items) × (totals.rules ≤ 127) × (totals.codes ≤ 64) }
    requires lines { Lines kernels.now totals.lines totals.items }
    requires linked { Linked kernels.now links.now totals.lines }
    requires lines_in_bounds { (totals.lines * 64 ≤ length lookaheads.now) × (q < 256) }
    requires nullable_len { (length nullable.now ≡ 128) × (length first.now ≡ 8192) × (length starts.now ≡ 8192) × (length through.now ≡ 128) }
    requires prepared { Prepared items.now (totals.rules + 1) totals.codes nullable.now first.now starts.now through.now }
    requires present_value { (present.old ≡ replicate 64 0) × (follow.old ≡ replicate 4096 0) }
    ensures { (g : Grammar) (t : Table) → InMemory items.now kernels.now lookaheads.now totals.rules totals.lines totals.codes g t → HoldsClosure g t (FirstBy totals.codes nullable.now first.now) q present.new follow.new }
{
    add_kernel(
        items, kernels, links, lookaheads, nullable, first, totals, q, present, follow,
    );
    close_present(items, totals.items, totals.rules, present);
    close_follow(
        items,
        starts,
        through,
        present,
        totals.items,
        totals.rules,
        totals.codes,
        follow,
    );
}

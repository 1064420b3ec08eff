// What moves from a state, and on which symbols.
// Inner: for the checker and the builder.
#![tactic(auto)]

ghost use Rattle.std.specs.Prelude.{◌≡◌, ℕ, ◌+◌, ◌-◌, ◌<◌, ◌≤◌, List, length, replicate};
ghost use Rattle.language.specs.Grammar.{Grammar};
ghost use Rattle.leftcorner.specs.Table.{Table};
ghost use Rattle.items.specs.Layout.{Shaped, left_at};
ghost use Rattle.fixpoint.specs.Flags.{On, Decides};
ghost use Rattle.memory.specs.Memory.{state_at, item_at, dot_at};
ghost use Rattle.memory.specs.Held.{HoldsTable};
ghost use Rattle.moves.specs.Moves.{symbol_after, next_at, Present, HasAt, MovedAt, Flagged, Readable, Cells};
ghost use Rattle.moves.specs.Flags.{HoldsPresent, HoldsMoves};

use symbol::{CODES, Symbol};

// The symbol before which item i's dot k stands, and not at its recognition point; 0 where there is none.
#[tactic(auto, unfolding(crate::specs::Moves::symbol_after))]
pub fn symbol_after(items: &[u8], count: usize, i: usize, k: usize) -> usize
    requires shaped { Shaped items.now count }
    requires i_le_count { i ≤ count }
    ensures { (result ≡ symbol_after items.now i k) × (result < 128) }
{
    if k < items::length_of(items, count, i) && items::mark_of(items, count, i) != k {
        items::symbol_of(items, count, i, k)
    } else {
        0
    }
}

// The next state of q's line S or N for x; 0 where there is none.
#[tactic(auto, unfolding(crate::specs::Moves::next_at))]
pub fn next_of(kinds: &[u8], values: &[u8], gotos: &[u8], q: usize, x: usize) -> usize
    requires cells { Cells kinds.now values.now gotos.now }
    requires q_bound { (q < 256) × (x < 128) }
    ensures { (result ≡ next_at kinds.now values.now gotos.now q x) × (result < 256) }
{
    if x >= Symbol::FIRST_NONTERMINAL {
        gotos[q * CODES + (x - Symbol::FIRST_NONTERMINAL)] as usize
    } else if kinds[q * CODES + x] == 1 {
        values[q * CODES + x] as usize
    } else {
        0
    }
}

// Whether rule i's left side is flagged.
pub fn is_present(items: &[u8], present: &[u8], count: usize, i: usize) -> bool
    requires shaped { Shaped items.now count }
    requires i_le_count { i ≤ count }
    requires present_len { length present.now ≡ 64 }
    ensures { Decides (Present items.now present.now i) result }
{
    let left = items::left_of(items, count, i);
    left >= Symbol::FIRST_NONTERMINAL && present[left - Symbol::FIRST_NONTERMINAL] != 0
}

// Whether q's closure has item i at dot k.
#[tactic(auto, using(crate::proofs::MoveLaws::line_has, crate::proofs::MoveLaws::rule_has, crate::proofs::MoveLaws::has_when))]
fn has(
    items: &[u8],
    kernels: &[u8],
    links: &[usize],
    present: &[u8],
    count: usize,
    rules: usize,
    lines: usize,
    q: usize,
    i: usize,
    k: usize,
) -> bool
    requires readable { Readable items.now kernels.now links.now present.now count rules lines }
    requires q_bound { q < 256 }
    ensures { Decides (HasAt items.now kernels.now present.now rules lines q i k) result }
{
    kernel_lines::has_line(kernels, links, lines, count, q, i, k)
        || k == 0 && 1 <= i && i <= rules && is_present(items, present, count, i)
}

// Whether item i comes to dot n by a move from q on x.
#[tactic(auto, using(crate::proofs::MoveLaws::came_yes, crate::proofs::MoveLaws::came_more, crate::proofs::MoveLaws::came_symbol, crate::proofs::MoveLaws::came_has))]
fn came(
    items: &[u8],
    kernels: &[u8],
    links: &[usize],
    present: &[u8],
    count: usize,
    rules: usize,
    lines: usize,
    q: usize,
    x: usize,
    i: usize,
    n: usize,
) -> bool
    requires readable { Readable items.now kernels.now links.now present.now count rules lines }
    requires q_bound { (q < 256) × (i ≤ count) }
    ensures { Decides (MovedAt items.now kernels.now present.now rules lines q x i n) result }
{
    n != 0
        && symbol_after(items, count, i, n - 1) == x
        && has(
            items,
            kernels,
            links,
            present,
            count,
            rules,
            lines,
            q,
            i,
            n - 1,
        )
}

// Whether line l came by a move from q on x.
pub fn line_came(
    items: &[u8],
    kernels: &[u8],
    links: &[usize],
    present: &[u8],
    count: usize,
    rules: usize,
    lines: usize,
    q: usize,
    x: usize,
    l: usize,
) -> bool
    requires readable { Readable items.now kernels.now links.now present.now count rules lines }
    requires q_bound { (q < 256) × (l < lines) }
    ensures { Decides (MovedAt items.now kernels.now present.now rules lines q x (item_at kernels.now l) (dot_at kernels.now l)) result }
{
    let i = kernel_lines::item_of(kernels, lines, count, l);
    let n = kernel_lines::dot_of(kernels, lines, count, l);
    came(
        items, kernels, links, present, count, rules, lines, q, x, i, n,
    )
}

// Flags the symbols that stand after the dots of q's kernel items, and 0.
fn flag_lines(
    items: &[u8],
    kernels: &[u8],
    links: &[usize],
    present: &[u8],
    count: usize,
    rules: usize,
    lines: usize,
    q: usize,
    moves: &mut [u8],
)
    requires readable { Readable items.now kernels.now links.now present.now count rules lines }
    requires q_bound { (q < 256) × (length moves.old ≡ 128) }
    ensures flagged { Flagged items.now kernels.now present.now rules lines q moves.old moves.new }
    ensures by_index { (l : ℕ) → l < lines → state_at kernels.now l ≡ q → On moves.new (symbol_after items.now (item_at kernels.now l) (dot_at kernels.now l)) }
{
    let mut p = kernel_lines::last_line(kernels, links, lines, q);
    // Stays a while: it follows the links of the state, and counts nothing.
    while 0 < p {
        let l = p - 1;
        let i = kernel_lines::item_of(kernels, lines, count, l);
        let k = kernel_lines::dot_of(kernels, lines, count, l);
        let x = symbol_after(items, count, i, k);
        moves[x] = 1;
        p = kernel_lines::line_before(kernels, links, lines, l);
    }
}

// Flags the symbols that the rules which q's closure adds begin with, and 0.
fn flag_rules(
    items: &[u8],
    kernels: &[u8],
    links: &[usize],
    present: &[u8],
    count: usize,
    rules: usize,
    lines: usize,
    q: usize,
    moves: &mut [u8],
)
    requires readable { Readable items.now kernels.now links.now present.now count rules lines }
    requires q_bound { (q < 256) × (length moves.old ≡ 128) }
    ensures flagged { Flagged items.now kernels.now present.now rules lines q moves.old moves.new }
    ensures by_index { (i : ℕ) → 1 ≤ i → i < rules + 1 → Present items.now present.now i → On moves.new (symbol_after items.now i 0) }
{
    for i in 1..rules + 1 {
        if is_present(items, present, count, i) {
            let x = symbol_after(items, count, i, 0);
            moves[x] = 1;
        }
    }
}

// Flags the symbols on which something moves from q. The flag for 0, which is no symbol, says nothing.
pub fn flag_moves(
    items: &[u8],
    kernels: &[u8],
    links: &[usize],
    present: &[u8],
    count: usize,
    rules: usize,
    lines: usize,
    q: usize,
    moves: &mut [u8],
)
    requires readable { Readable items.now kernels.now links.now present.now count rules lines }
    requires q_bound { (q < 256) × (moves.old ≡ replicate 128 0) }
    ensures moves_len { length moves.new ≡ 128 }
    ensures holds_moves { (g : Grammar) (t : Table) (entries lookaheads kinds values gotos : List ℕ) (strings : ℕ) → HoldsTable g t items.now entries kernels.now lookaheads kinds values gotos rules strings lines → HoldsPresent g t q present.now → HoldsMoves g t q moves.new }
{
    flag_lines(
        items, kernels, links, present, count, rules, lines, q, moves,
    );
    flag_rules(
        items, kernels, links, present, count, rules, lines, q, moves,
    );
}

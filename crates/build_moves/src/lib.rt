// What moves from a kernel set, given as the rising numbers item * 16 + dot of its items.
// Inner: for the builder.
#![tactic(auto)]

ghost use Rattle.std.specs.Prelude.{◌≡◌, ◌+◌, ◌*◌, ◌<◌, ◌≤◌, ◌++◌, length, take};
ghost use Rattle.items.specs.Layout.{Shaped};
ghost use Rattle.analysis.specs.Adds.{Adds};
ghost use Rattle.build_moves.specs.Moved.{Numbered, OfNumber, StandsBefore, SameNumber, RuleStart, moved_below, picked, ListsMoves};

use symbol::{CODES, SYMBOLS, Symbol};

// Flags the items of a kernel set, and the nonterminals before which they stand.
fn flag_kernel(items: &[u8], count: usize, kernel: &[usize], present: &mut [u8], held: &mut [u8])
    requires shaped { Shaped items.now count }
    requires count_bound { (count ≤ 254) × (length present.old ≡ 64) × (length held.old ≡ 4096) }
    requires numbered { Numbered count kernel.now }
    ensures adds { Adds (OfNumber (StandsBefore items.now) kernel.now) present.old present.new }
    ensures adds_2 { Adds (OfNumber SameNumber kernel.now) held.old held.new }
{
    for &x in kernel {
        held[x] = 1;
        let s = moves::symbol_after(items, count, x / 16, x % 16);
        if s >= Symbol::FIRST_NONTERMINAL {
            present[s - Symbol::FIRST_NONTERMINAL] = 1;
        }
    }
}

// Flags the rules, dot 0, whose left side is flagged.
fn hold_rules(items: &[u8], count: usize, rules: usize, present: &[u8], held: &mut [u8])
    requires shaped { Shaped items.now count }
    requires rules_le_count { (rules ≤ count) × (count ≤ 254) × (length present.now ≡ 64) × (length held.old ≡ 4096) }
    ensures { Adds (RuleStart items.now present.now (rules + 1)) held.old held.new }
{
    for i in 1..rules + 1 {
        if moves::is_present(items, present, count, i) {
            held[i * 16] = 1;
        }
    }
}

// Lists what moves of the items that are flagged: one pass, for all symbols.
fn list_moved(items: &[u8], count: usize, held: &[u8], moved: &mut [usize]) -> usize
    requires shaped { Shaped items.now count }
    requires count_bound { (count ≤ 254) × (length held.now ≡ 4096) × (length moved.old ≡ 4096) }
    ensures { (result ≤ 4096) × (take result moved.new ≡ moved_below items.now held.now (count * 16 + 16)) }
{
    let mut n = 0;
    for x in 0..count * 16 + 16 {
        if held[x] == 0 {
            continue;
        }
        let s = moves::symbol_after(items, count, x / 16, x % 16);
        if s != 0 {
            moved[n] = (x + 1) * SYMBOLS + s;
            n += 1;
        }
    }
    n
}

// Lists what moves from a kernel set.
pub fn list_moves(
    items: &[u8],
    count: usize,
    rules: usize,
    kernel: &[usize],
    moved: &mut [usize],
) -> usize
    requires shaped { Shaped items.now count }
    requires rules_le_count { (rules ≤ count) × (count ≤ 254) × (length moved.old ≡ 4096) }
    requires numbered { Numbered count kernel.now }
    ensures upper_bound { result ≤ 4096 }
    ensures lists_moves { ListsMoves items.now rules count kernel.now (take result moved.new) }
{
    let mut present = [0u8; CODES];
    let mut held = [0u8; 4096];
    flag_kernel(items, count, kernel, &mut present, &mut held);
    closure::close_present(items, count, rules, &mut present);
    hold_rules(items, count, rules, &present, &mut held);
    list_moved(items, count, &held, moved)
}

// Stores from `at` on the numbers of what moves on x, and tells how many there are.
pub fn pick_moves(moved: &[usize], n: usize, x: usize, sets: &mut [usize], at: usize) -> usize
    requires { (n ≤ length moved.now) × (at + n ≤ length sets.old) }
    ensures upper_bound { (result ≤ n) × (result ≡ length (picked x (take n moved.now))) }
    ensures sets_after { take (at + result) sets.new ≡ take at sets.old ++ picked x (take n moved.now) }
{
    let mut len = 0;
    for &c in &moved[..n] {
        if c % SYMBOLS == x {
            sets[at + len] = c / SYMBOLS;
            len += 1;
        }
    }
    len
}

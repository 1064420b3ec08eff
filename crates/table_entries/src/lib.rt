// Entry lines of table books, and their strings and states in memory.
// Inner: for `table_blocks`, the builder and `explain_lines`.
#![tactic(auto)]

ghost use Rattle.std.specs.Prelude.{◌≡◌, List, [], ◌∷◌, ◌++◌, not, ◌||◌, ℕ, ◌+◌, ◌*◌, ◌≤◌, ◌<◌, ltb, length, get_or, take, drop};
ghost use Rattle.std.proofs.lemmas.List.Edits.{sets};
ghost use Rattle.language.specs.Grammar.{Grammar, Rule};
ghost use Rattle.items.specs.Layout.{entry_row, EntryIn, Shaped};
ghost use Rattle.leftcorner.specs.Table.{EntryLine, E, same_string, entry_from};
ghost use Rattle.table_order.specs.Order.{first_use, entry_follows};
ghost use Rattle.table_lines.specs.Block.{Numbers, Summarizes, Comes, Reads};
ghost use Rattle.table_entries.specs.Entries.{all_declared, judge_entry, entry_next, entries_from};
ghost use Rattle.table_entries.specs.Memory.{Rows, RulesIn, HoldsRules, last_use, HoldsEntries, Empty, EntryMemory};

use range::in_range;
use reply::{Kind, Refusal};
use symbol::Symbol;
use table_lines::{Block, Judgement, Line, Step, Tally};

// Whether item i's string is that of the numbers from the second on.
fn same_string(m: &[u8], items: usize, i: usize, numbers: &[usize], count: usize) -> bool
    requires shaped { Shaped m.now items }
    requires i_le { i ≤ items }
    requires le_count { (1 ≤ count) × (length numbers.now ≡ 67) }
    ensures { (γ ns : List ℕ) → EntryIn m.now i γ → Numbers ns count numbers.now → result ≡ same_string γ (drop 1 ns) }
{
    let len = items::length_of(m, items, i);
    len + 1 == count && item_groups::is_part(m, items, i, 0, len, &numbers[1..count])
}

// The number of the entry whose string is that of the numbers from the second on, 0 where there is none. It looks at
// each entry, of which there are at most 127.
pub fn find_entry(m: &[u8], rules: usize, entries: usize, numbers: &[usize], count: usize) -> usize
    requires shaped { Shaped m.now (rules + entries) }
    requires entries_bound { (rules + entries < 256) × (1 ≤ count) × (length numbers.now ≡ 67) }
    ensures { (l : List EntryLine) (ns : List ℕ) → length l ≡ entries → Rows m.now rules l → Numbers ns count numbers.now → result ≡ entry_from 1 l (drop 1 ns) }
{
    for k in 1..=entries {
        if same_string(m, rules + entries, rules + k, numbers, count) {
            return k;
        }
    }
    0
}

// Whether each of the numbers from the second on is a terminal or a nonterminal.
fn all_declared(t: usize, n: usize, numbers: &[usize], count: usize) -> bool
    requires { (1 ≤ count) × (count ≤ length numbers.now) }
    ensures { result ≡ all_declared t n (drop 1 (take count numbers.now)) }
{
    for code in &numbers[1..count] {
        let symbol = Symbol { code: *code };
        if !symbol.is_declared(t, n) {
            return false;
        }
    }
    true
}

// The first use of the string of the numbers from the second on; 0 where it is no group. A group has 1 to 15 symbols.
pub fn use_of(m: &[u8], items: usize, rules: usize, numbers: &[usize], count: usize) -> usize
    requires shaped { Shaped m.now items }
    requires rules_le { (rules ≤ items) × (rules ≤ 127) × (length numbers.now ≡ 67) }
    ensures { (g : Grammar) (ns : List ℕ) → RulesIn g m.now rules → Numbers ns count numbers.now → result ≡ first_use g.rules (drop 1 ns) }
{
    if count < 2 || 16 < count {
        return 0;
    }
    item_groups::first_use(m, items, rules, &numbers[1..count])
}

// Whether a line with the first use `used` may come where `last` binds it; 0 is no group's, and is passed over.
fn may_follow(last: usize, used: usize) -> bool
    ensures { result ≡ not (ltb 0 used) || ltb last used }
{
    used == 0 || last < used
}

// What binds the line after one with the first use `used`, which came after so many others. The first line binds none, nor does a string
// that is no group.
fn bind_next(last: usize, entries: usize, used: usize) -> usize
    ensures { (rs : List Rule) (l : List EntryLine) (s : ℕ) (γ : List ℕ) → length l ≡ entries → last ≡ last_use rs l → used ≡ first_use rs γ → result ≡ last_use rs (l ++ E s γ ∷ []) }
{
    if entries == 0 || used == 0 {
        return last;
    }
    used
}

fn judge_entry(
    t: usize,
    n: usize,
    states: usize,
    rules: usize,
    entries: usize,
    letter: u8,
    p: Tally,
    numbers: &[usize],
    m: &[u8],
    in_order: bool,
) -> Judgement
    requires entries_bound { (rules + entries < 256) × (length numbers.now ≡ 67) }
    requires shaped { Shaped m.now (rules + entries) }
    ensures { (rs : List Rule) (l : List EntryLine) (ns : List ℕ) → length l ≡ entries → Rows m.now rules l → Summarizes ns p numbers.now
        → in_order ≡ entry_follows rs l (drop 1 ns) → result ≡ judge_entry t n rs states l letter ns }
{
    if letter != b'E' {
        return Judgement::Faulty(Kind::Malformed);
    }
    if p.count < 2 {
        return Judgement::Faulty(Kind::Malformed);
    }
    if find_entry(m, rules, entries, numbers, p.count) != 0 {
        return Judgement::Faulty(Kind::Malformed);
    }
    if !in_order {
        return Judgement::Faulty(Kind::Malformed);
    }
    if 65535 < p.largest {
        return Judgement::Faulty(Kind::LimitExceeded);
    }
    if 16 < p.count {
        return Judgement::Faulty(Kind::LimitExceeded);
    }
    if !in_range(1, numbers[0], states) {
        return Judgement::Faulty(Kind::Undeclared);
    }
    if !all_declared(t, n, numbers, p.count) {
        return Judgement::Faulty(Kind::Undeclared);
    }
    Judgement::Fine
}

// The row at `base`, all zeros so far, becomes that of the string of the numbers from the second on.
pub fn store_row(items: &mut [u8], base: usize, numbers: &[usize], count: usize)
    requires le_count { (1 ≤ count) × (count ≤ 16) × (length numbers.now ≡ 67) × (base ≤ 16384) }
    requires by_index { (k : ℕ) → k < count → get_or numbers.now k 0 < 256 }
    requires by_index_2 { (j : ℕ) → base ≤ j → j < base + 64 → get_or items.old j 0 ≡ 0 }
    ensures { items.new ≡ sets items.old base (entry_row (drop 1 (take count numbers.now))) }
{
    let symbols = &numbers[1..count];
    for (k, symbol) in symbols.iter().enumerate() {
        table_lines::put(items, base + 16 + k, *symbol);
    }
    table_lines::put(items, base, 0);
    table_lines::put(items, base + 1, symbols.len());
    table_lines::put(items, base + 2, 255);
    table_lines::put(items, base + 3, 0);
}

// The entry line at `at`, after so many others; `last` holds the first use that binds it.
fn read_entry(
    s: &[u8],
    at: usize,
    t: usize,
    n: usize,
    states: usize,
    rules: usize,
    entries: usize,
    items: &mut [u8],
    entry_states: &mut [u8],
    named: &mut [u8],
    last: &mut [usize],
) -> Step
    requires s_len_bound { (length s.now < 65537) × (t ≤ 63) × (n ≤ 64) × (states ≤ 255) × (rules + entries < 254) }
    requires entries_in_bounds { (rules + entries) * 64 + 128 ≤ length items.old }
    requires shaped { Shaped items.old (rules + entries) }
    requires empty { Empty items.old (rules + entries + 1) }
    requires holds_entries { HoldsEntries items.old rules entries last.old }
    ensures { (g : Grammar) (m : List ℕ) (a b : ℕ) (l : List EntryLine) → RulesIn g m rules → length l ≡ entries
        → EntryMemory m rules a b l items.old entry_states.old named.old × (last.old ≡ last_use g.rules l ∷ [])
        → Comes l (λ k. EntryMemory m rules a b k items.new entry_states.new named.new × (last.new ≡ last_use g.rules k ∷ []))
        (entry_next s.now t n g.rules states at l) result }
{
    let mut numbers = [0usize; 67];
    let Line::Whole(letter, p, next) = table_lines::read_line(s, at, &mut numbers) else {
        return Step::Refused(Refusal {
            kind: Kind::Malformed,
            place: at,
        });
    };
    let used = use_of(items, rules + entries, rules, &numbers, p.count);
    let in_order = may_follow(last[0], used);
    let judgement = judge_entry(
        t, n, states, rules, entries, letter, p, &numbers, items, in_order,
    );
    if let Judgement::Faulty(kind) = judgement {
        return Step::Refused(Refusal { kind, place: at });
    }
    let state = numbers[0];
    store_row(items, (rules + entries + 1) * items::ROW, &numbers, p.count);
    table_lines::put(entry_states, entries + 1, state);
    table_lines::put(named, state, 1);
    last[0] = bind_next(last[0], entries, used);
    Step::Taken(next)
}

// `count` entry lines from `first` on. A refusal leaves the slices free; `table::read_tables` then clears them.
pub fn read_entries(
    s: &[u8],
    first: usize,
    t: usize,
    n: usize,
    states: usize,
    rules: usize,
    count: usize,
    items: &mut [u8],
    entry_states: &mut [u8],
    named: &mut [u8],
) -> Block
    requires s_len_bound { (length s.now < 65537) × (t ≤ 63) × (n ≤ 64) × (states ≤ 255) × (rules + count < 255) }
    requires count_in_bounds { (rules + count) * 64 + 64 ≤ length items.old }
    requires entry_memory { EntryMemory items.old rules (length entry_states.old) (length named.old) [] items.old entry_states.old named.old }
    requires holds_rules { HoldsRules items.old rules }
    ensures { (g : Grammar) → RulesIn g items.old rules
        → Reads (λ l. EntryMemory items.old rules (length entry_states.old) (length named.old) l items.new entry_states.new named.new)
        (entries_from count s.now t n g.rules states first) result }
{
    let mut last = [0usize; 1];
    let mut at = first;
    for k in 0..count {
        match read_entry(
            s,
            at,
            t,
            n,
            states,
            rules,
            k,
            items,
            entry_states,
            named,
            &mut last,
        ) {
            Step::Taken(next) => at = next,
            Step::Stopped => return Block::Read(k, at),
            Step::Refused(why) => return Block::Refused(why),
        }
    }
    Block::Read(count, at)
}

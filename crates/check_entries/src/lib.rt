// The list of entries: the goal alone, then every other distinct group once; and which entries the groups of a rule use.
// Inner: for the checker, the builder and `walk_rules`.
#![tactic(auto)]

ghost use Rattle.std.specs.Prelude.{◌≡◌, true, ℕ, ◌+◌, ◌*◌, ◌-◌, ◌<◌, ◌≤◌, length, get_or, replicate};
ghost use Rattle.std.proofs.Math.Option.{some};
ghost use Rattle.language.specs.Grammar.{Grammar, Rule, rule_at};
ghost use Rattle.leftcorner.specs.Table.{Table};
ghost use Rattle.leftcorner.specs.Construction.{EntriesMeet};
ghost use Rattle.items.specs.Layout.{Shaped, length_at, symbol_at};
ghost use Rattle.fixpoint.specs.Flags.{Decides};
ghost use Rattle.check_entries.specs.Parts.{SamePart, FindsEntry};
ghost use Rattle.check_entries.specs.Faults.{EntryFaultIs, InRange};
ghost use Rattle.check_entries.specs.Uses.{HoldsStrings, HoldsUses, FilledRule, Filled};

use fixpoint::Found;

// Why the list of entries is not that of the construction.
#[derive(Clone, Copy)]
pub enum EntryFault {
    // The first entry is not the goal alone.
    NotGoal,
    // A rule, and where its group without an entry begins and ends.
    Bare(usize, usize, usize),
    // An entry that is neither the goal nor a group.
    Unwanted(usize),
    Nothing,
}

// Whether item e's string is n symbols of item i, from `from` on.
fn same_part(items: &[u8], count: usize, i: usize, from: usize, n: usize, e: usize) -> bool
    requires shaped { Shaped items.now count }
    requires i_le_count { (i ≤ count) × (e ≤ count) × (from + n ≤ 15) }
    ensures { Decides (SamePart items.now i from n e) result }
{
    if items::length_of(items, count, e) != n {
        return false;
    }
    for j in 0..n {
        if items::symbol_of(items, count, i, from + j) != items::symbol_of(items, count, e, j) {
            return false;
        }
    }
    true
}

// The number of an entry with that string; 0 where there is none.
fn entry_of(items: &[u8], rules: usize, strings: usize, i: usize, from: usize, n: usize) -> usize
    requires shaped { Shaped items.now (rules + strings) }
    requires i_le_rules { (i ≤ rules) × (rules ≤ 127) × (strings ≤ 127) × (from + n ≤ 15) }
    ensures { FindsEntry items.now rules strings i from n result }
{
    let count = rules + strings;
    for k in 1..=strings {
        if same_part(items, count, i, from, n, rules + k) {
            return k;
        }
    }
    0
}

// Notes the entries that the groups of rule i use, and flags those entries; the first group that has none.
fn fill_rule(
    items: &[u8],
    rules: usize,
    strings: usize,
    i: usize,
    uses: &mut [u8],
    wanted: &mut [u8],
) -> EntryFault
    requires shaped { Shaped items.now (rules + strings) }
    requires le_i { (1 ≤ i) × (i ≤ rules) × (rules ≤ 127) × (strings ≤ 127) }
    requires uses_len { (length uses.old ≡ 2048) × (length wanted.old ≡ 128) }
    ensures uses_len_2 { (length uses.new ≡ 2048) × (length wanted.new ≡ 128) × InRange rules strings result }
    ensures filled_rule { (g : Grammar) (t : Table) (r : Rule) → HoldsStrings g t items.now rules strings → rule_at g i ≡ some r → ((n : ℕ) → n < 16 → get_or uses.old (i * 16 + n) 0 ≡ 0)
        → FilledRule g t i r uses.old uses.new wanted.old wanted.new result }
{
    let count = rules + strings;
    let length = items::length_of(items, count, i);
    let mut from = items::mark_of(items, count, i);
    let mut j: usize = 0;
    // Stays a counted loop: `from` moves by a group's length, and `j` by one.
    while from < length {
        let to = item_groups::group_end(items, count, i, from, length);
        let e = entry_of(items, rules, strings, i, from, to - from);
        if e == 0 {
            return EntryFault::Bare(i, from, to);
        }
        uses[i * 16 + j] = e as u8;
        wanted[e] = 1;
        from = to;
        j += 1;
    }
    EntryFault::Nothing
}

// Does so for every rule.
fn fill_rules(
    items: &[u8],
    rules: usize,
    strings: usize,
    uses: &mut [u8],
    wanted: &mut [u8],
) -> EntryFault
    requires shaped { Shaped items.now (rules + strings) }
    requires rules_bound { (rules ≤ 127) × (strings ≤ 127) }
    requires uses_len { (length uses.old ≡ 2048) × (length wanted.old ≡ 128) }
    ensures uses_len_2 { (length uses.new ≡ 2048) × (length wanted.new ≡ 128) × InRange rules strings result }
    ensures entry_fault_is { (g : Grammar) (t : Table) → HoldsStrings g t items.now rules strings → ((x : ℕ) → get_or uses.old x 0 ≡ 0)
        → EntryFaultIs g t (Filled g t (rules + 1) uses.new wanted.old wanted.new) result }
{
    for i in 1..=rules {
        let fault = fill_rule(items, rules, strings, i, uses, wanted);
        let EntryFault::Nothing = fault else {
            return fault;
        };
    }
    EntryFault::Nothing
}

// Notes at rule * 16 + group the number of each group's entry, where the entries are those of the construction.
pub fn note_uses(items: &[u8], rules: usize, strings: usize, uses: &mut [u8])
    requires shaped { Shaped items.now (rules + strings) }
    requires rules_bound { (rules ≤ 127) × (strings ≤ 127) × (uses.old ≡ replicate 2048 0) }
    ensures uses_len { length uses.new ≡ 2048 }
    ensures holds_uses { (g : Grammar) (t : Table) → HoldsStrings g t items.now rules strings → EntriesMeet g t → HoldsUses uses.new g t }
{
    let mut wanted = [0u8; 128];
    fill_rules(items, rules, strings, uses, &mut wanted);
}

// Whether item i's string is the goal alone.
fn is_goal(items: &[u8], count: usize, i: usize, goal: usize) -> bool
    requires shaped { Shaped items.now count }
    requires i_le_count { i ≤ count }
    ensures { Decides ((length_at items.now i ≡ 1) × (symbol_at items.now i 0 ≡ goal)) result }
{
    items::length_of(items, count, i) == 1 && items::symbol_of(items, count, i, 0) == goal
}

// Why the entries are not those of the construction; if nothing is wrong, notes at rule * 16 + group the number of each group's entry.
pub fn find_entry_fault(
    items: &[u8],
    rules: usize,
    strings: usize,
    goal: usize,
    uses: &mut [u8],
) -> EntryFault
    requires shaped { Shaped items.now (rules + strings) }
    requires rules_bound { (rules ≤ 127) × (1 ≤ strings) × (strings ≤ 127) }
    requires uses_value { uses.old ≡ replicate 2048 0 }
    ensures uses_len { (length uses.new ≡ 2048) × InRange rules strings result }
    ensures entry_fault_is { (g : Grammar) (t : Table) → HoldsStrings g t items.now rules strings → g.goal ≡ goal
        → EntryFaultIs g t (EntriesMeet g t × HoldsUses uses.new g t) result }
{
    let mut wanted = [0u8; 128];
    if !is_goal(items, rules + strings, rules + 1, goal) {
        return EntryFault::NotGoal;
    }
    let fault = fill_rules(items, rules, strings, uses, &mut wanted);
    let EntryFault::Nothing = fault else {
        return fault;
    };
    let unwanted = fixpoint::lowest_unset(&wanted, 2, strings + 1);
    match unwanted {
        Found::At(k) => EntryFault::Unwanted(k),
        Found::Nothing => EntryFault::Nothing,
    }
}

// Whether the entries are those of the construction; if so, notes the entries of the groups.
pub fn entries_meet(
    items: &[u8],
    rules: usize,
    strings: usize,
    goal: usize,
    uses: &mut [u8],
) -> bool
    requires shaped { Shaped items.now (rules + strings) }
    requires rules_bound { (rules ≤ 127) × (1 ≤ strings) × (strings ≤ 127) }
    requires uses_value { uses.old ≡ replicate 2048 0 }
    ensures uses_len { length uses.new ≡ 2048 }
    ensures decides { (g : Grammar) (t : Table) → HoldsStrings g t items.now rules strings → g.goal ≡ goal
        → Decides (EntriesMeet g t) result × (result ≡ true → HoldsUses uses.new g t) }
{
    matches!(
        find_entry_fault(items, rules, strings, goal, uses),
        EntryFault::Nothing
    )
}

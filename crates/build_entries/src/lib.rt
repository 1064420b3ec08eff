// Finds the entries of a grammar that stands in memory, and stores their strings as items behind its rules.
// Inner: for `build_memory`.
#![tactic(auto)]

ghost use Rattle.std.specs.Prelude.{◌≡◌, List, ℕ, ◌+◌, ◌≤◌, ◌<◌, length, get_or, take, drop};
ghost use Rattle.std.proofs.Math.Option.{some};
ghost use Rattle.language.specs.Grammar.{Grammar, Rule, rule_at};
ghost use Rattle.items.specs.Layout.{Shaped, symbol_at};
ghost use Rattle.item_groups.specs.Groups.{PartIs};
ghost use Rattle.build_states.specs.Strings.{add_string, add_groups};
ghost use Rattle.build_entries.specs.Memory.{HoldsRules, RulesOnly, Listed, Stored, EntryRoom, Grown, Reached};

// n symbols of item i, from `from` on, as the numbers from the second on.
fn load_part(items: &[u8], count: usize, i: usize, from: usize, n: usize, numbers: &mut [usize])
    requires shaped { Shaped items.now count }
    requires i_le_count { (i ≤ count) × (from + n ≤ 15) }
    requires numbers_len { (length numbers.old ≡ 67) × ((k : ℕ) → get_or numbers.old k 0 < 128) }
    ensures numbers_len_2 { (length numbers.new ≡ 67) × ((k : ℕ) → get_or numbers.new k 0 < 128) }
    ensures by_index { (j : ℕ) → j < n → get_or numbers.new (j + 1) 0 ≡ symbol_at items.now i (from + j) }
{
    for k in 0..n {
        numbers[k + 1] = items::symbol_of(items, count, i, from + k);
    }
}

// The string of the numbers from the second on joins the entries where it is new; the number of entries after it.
fn add_string(
    items: &mut [u8],
    rules: usize,
    strings: usize,
    numbers: &[usize],
    count: usize,
) -> usize
    requires entry_room { EntryRoom items.old rules strings }
    requires strings_bound { (strings ≤ 127) × (1 ≤ count) × (count ≤ 16) × (length numbers.now ≡ 67) }
    requires by_index { (k : ℕ) → get_or numbers.now k 0 < 128 }
    ensures grown { Grown items.old items.new rules strings result }
    ensures stored { (g : Grammar) (l : List (List ℕ)) (size : ℕ) → Stored g l size items.old rules strings
        → Stored g (add_string l (drop 1 (take count numbers.now))) size items.new rules result }
{
    if table_entries::find_entry(items, rules, strings, numbers, count) != 0 {
        return strings;
    }
    table_entries::store_row(items, (rules + strings + 1) * items::ROW, numbers, count);
    strings + 1
}

// The string of n symbols of item i, from `from` on, does so.
fn add_part(
    items: &mut [u8],
    rules: usize,
    strings: usize,
    i: usize,
    from: usize,
    n: usize,
) -> usize
    requires entry_room { EntryRoom items.old rules strings }
    requires strings_bound { (strings ≤ 127) × (i ≤ rules) × (from + n ≤ 15) }
    ensures grown { Grown items.old items.new rules strings result }
    ensures stored { (g : Grammar) (l : List (List ℕ)) (size : ℕ) (γ : List ℕ) → Stored g l size items.old rules strings
        → PartIs items.old i from n γ → Stored g (add_string l γ) size items.new rules result }
{
    let mut numbers = [0usize; 67];
    load_part(items, rules + strings, i, from, n, &mut numbers);
    add_string(items, rules, strings, &numbers, n + 1)
}

// The groups of rule i do so, left to right, up to the entry past the limit.
fn add_groups(items: &mut [u8], rules: usize, strings: usize, i: usize) -> usize
    requires entry_room { EntryRoom items.old rules strings }
    requires strings_bound { (strings ≤ 127) × (i ≤ rules) }
    ensures entry_room_2 { EntryRoom items.new rules result × (result ≤ 128) }
    ensures reached { (g : Grammar) (l : List (List ℕ)) (size : ℕ) (rule : Rule) → Stored g l size items.old rules strings
        → rule_at g i ≡ some rule → Reached g (add_groups l rule.groups) size items.new rules result }
{
    let length = items::length_of(items, rules + strings, i);
    let mut from = items::mark_of(items, rules + strings, i);
    let mut n = strings;
    while from < length && n <= 127 {
        let to = item_groups::group_end(items, rules + n, i, from, length);
        n = add_part(items, rules, n, i, from, to - from);
        from = to;
    }
    n
}

// Stores the grammar's entries behind its rules: the goal alone, then the groups in rule order, each distinct string once.
// Answers their number, and 128 for every number above 127.
pub fn list_entries(items: &mut [u8], rules: usize, goal: usize) -> usize
    requires { HoldsRules items.old rules goal }
    ensures len_unchanged { length items.new ≡ length items.old }
    ensures listed { (g : Grammar) → RulesOnly g items.old rules goal → Listed g (length items.old) items.new result }
{
    let mut numbers = [0usize; 67];
    numbers[1] = goal;
    let mut n = add_string(items, rules, 0, &numbers, 2);
    for i in 1..rules + 1 {
        if n > 127 {
            break;
        }
        n = add_groups(items, rules, n, i);
    }
    n
}

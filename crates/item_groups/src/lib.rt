// The groups of rules in memory: where each ends, and which of them is the first that is a given string.
// Inner: for crates that know the item table to be in shape.
#![tactic(auto)]

ghost use Rattle.std.specs.Prelude.{◌≡◌, List, ℕ, ◌+◌, ◌<◌, ◌≤◌, length};
ghost use Rattle.language.specs.Grammar.{Grammar, Rule};
ghost use Rattle.language.specs.WellFormed.{WellFormed, RuleFormed};
ghost use Rattle.leftcorner.specs.Table.{same_string};
ghost use Rattle.items.specs.Layout.{Shaped, Holds, RuleIn, length_at};
ghost use Rattle.table_order.specs.Order.{first_use};
ghost use Rattle.item_groups.specs.Groups.{GroupEnd, PartIs};
ghost use Rattle.item_groups.specs.Uses.{Seeks};

// What comes of the search for a string among groups, which are numbered.
#[derive(Clone, Copy)]
pub enum Search {
    // The number of the first that is the string.
    Found(usize),
    // None is; the number of the group behind them.
    Passed(usize),
}

// The end of the group of item i, whose string has that length, that begins at `from`.
pub fn group_end(items: &[u8], count: usize, i: usize, from: usize, length: usize) -> usize
    requires shaped { Shaped items.now count }
    requires i_le_count { (i ≤ count) × (from < length) × (length ≡ length_at items.now i) × (length ≤ 15) }
    ensures { GroupEnd items.now i from result }
{
    for k in from + 1..length {
        if items::start_of(items, count, i, k) != 0 {
            return k;
        }
    }
    length
}

// Whether n symbols of item i, from `from` on, are the string.
pub fn is_part(
    items: &[u8],
    count: usize,
    i: usize,
    from: usize,
    n: usize,
    string: &[usize],
) -> bool
    requires shaped { Shaped items.now count }
    requires i_le_count { (i ≤ count) × (from + n ≤ 15) }
    ensures { (γ : List ℕ) → PartIs items.now i from n γ → result ≡ same_string γ string.now }
{
    if n != string.len() {
        return false;
    }
    for (k, symbol) in string.iter().enumerate() {
        if items::symbol_of(items, count, i, from + k) != *symbol {
            return false;
        }
    }
    true
}

// Seeks the string among the groups of rule i, the first of which has the number `first`.
fn seek_in_rule(items: &[u8], count: usize, i: usize, first: usize, string: &[usize]) -> Search
    requires shaped { Shaped items.now count }
    requires i_le_count { (i ≤ count) × (first ≤ 1905) }
    ensures by_index { (k : ℕ) → result ≡ Search.Passed k → k ≤ first + 15 }
    ensures seeks { (g : Grammar) (r : Rule) → RuleFormed g r → RuleIn items.now i r → Seeks first r.groups string.now result }
{
    let length = items::length_of(items, count, i);
    let mut from = items::mark_of(items, count, i);
    let mut k = first;
    // Stays a counted loop: `from` moves by a group's length, and `k` by one.
    while from < length {
        let to = group_end(items, count, i, from, length);
        if is_part(items, count, i, from, to - from, string) {
            return Search::Found(k);
        }
        from = to;
        k += 1;
    }
    Search::Passed(k)
}

// The number of the first group, rule by rule and left to right, that is the string; 0 where none is. The rules are the first items.
pub fn first_use(items: &[u8], count: usize, rules: usize, string: &[usize]) -> usize
    requires shaped { Shaped items.now count }
    requires rules_le_count { (rules ≤ count) × (rules ≤ 127) }
    ensures { (g : Grammar) → WellFormed g → Holds items.now rules g → result ≡ first_use g.rules string.now }
{
    let mut next = 1;
    for i in 1..=rules {
        match seek_in_rule(items, count, i, next, string) {
            Search::Found(k) => return k,
            Search::Passed(k) => next = k,
        }
    }
    0
}

// Derivation heights of a grammar in memory, and the first rule of least height.
// Inner: for `generate_choices`.
#![tactic(auto)]

ghost use Rattle.std.specs.Prelude.{◌≡◌, false, ◌-◌, ◌<◌, ◌≤◌, length};
ghost use Rattle.items.specs.Layout.{Shaped};
ghost use Rattle.language.specs.Grammar.{Grammar, IsNonterminal};
ghost use Rattle.generate_loads.specs.Load.{shortest};
ghost use Rattle.generate_heights.specs.Heights.{Source, lower_in, Started, Reached, HoldsHeights};

// So many bytes hold the heights, by symbol.
const HEIGHTS: usize = 128;

// The height of a symbol that has none yet.
const UNSET: u8 = 255;

// Whether every symbol of rule i is lower than `high`.
fn all_lower(items: &[u8], rules: usize, heights: &[u8], i: usize, high: u8) -> bool
    requires shaped { Shaped items.now rules }
    requires in_bounds { (128 ≤ length heights.now) × (i ≤ rules) }
    ensures { result ≡ lower_in items.now heights.now high i }
{
    for k in 0..items::length_of(items, rules, i) {
        let x = items::symbol_of(items, rules, i, k);
        if high <= heights[x] {
            return false;
        }
    }
    true
}

// Before the first round: terminals have height 0, all else has none.
fn start_heights(terminals: usize, heights: &mut [u8])
    requires { 128 ≤ length heights.old }
    ensures { Started terminals 128 heights.new }
{
    for x in 0..HEIGHTS {
        heights[x] = if x <= terminals { 0 } else { UNSET };
    }
}

// Round h: the left side of each rule whose symbols are all lower has height h, if it has none yet. Answers whether one has it.
fn add_heights(items: &[u8], rules: usize, h: u8, heights: &mut [u8]) -> bool
    requires shaped { (Shaped items.now rules) × (rules ≤ 127) }
    requires in_bounds { 128 ≤ length heights.old }
    requires le_h { (1 ≤ h) × (h < 255) }
    ensures heights_unchanged { result ≡ false → heights.new ≡ heights.old }
    ensures reached { (g : Grammar) → Source items.now rules g → Reached g (h - 1) heights.old → Reached g h heights.new }
{
    let mut added = false;
    for i in 1..rules + 1 {
        let x = items::left_of(items, rules, i);
        if heights[x] == UNSET && all_lower(items, rules, heights, i, h) {
            heights[x] = h;
            added = true;
        }
    }
    added
}

// The derivation height of each symbol, by rounds until one adds none; there are no more than nonterminals.
pub fn find_heights(
    items: &[u8],
    terminals: usize,
    nonterminals: usize,
    rules: usize,
    heights: &mut [u8],
)
    requires shaped { (Shaped items.now rules) × (rules ≤ 127) }
    requires nonterminals_bound { nonterminals ≤ 64 }
    requires in_bounds { 128 ≤ length heights.old }
    ensures { (g : Grammar) → Source items.now rules g → g.terminals ≡ terminals → g.nonterminals ≡ nonterminals → HoldsHeights g heights.new }
{
    start_heights(terminals, heights);
    for h in 1..nonterminals + 1 {
        if !add_heights(items, rules, h as u8, heights) {
            return;
        }
    }
}

// The first rule of nonterminal x of least derivation height: all of its symbols are lower than x.
pub fn shortest_rule(items: &[u8], rules: usize, heights: &[u8], x: usize) -> usize
    requires shaped { (Shaped items.now rules) × (rules ≤ 127) }
    requires in_bounds { (128 ≤ length heights.now) × (x < 128) }
    ensures upper_bound { result ≤ rules }
    ensures value { (g : Grammar) → Source items.now rules g → HoldsHeights g heights.now → IsNonterminal g x → result ≡ shortest g x }
{
    let high = heights[x];
    for rule in 1..rules + 1 {
        if items::left_of(items, rules, rule) == x && all_lower(items, rules, heights, rule, high) {
            return rule;
        }
    }
    0
}

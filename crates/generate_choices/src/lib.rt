// The choices that the generator has for each nonterminal: its rules, and the first of least derivation height.
// Inner: for `generator`.
#![tactic(auto)]

ghost use Rattle.std.specs.Prelude.{◌≡◌, ◌+◌, ◌*◌, ◌/◌, ◌%◌, ◌<◌, ◌≤◌, length};
ghost use Rattle.std.proofs.lemmas.List.Edits.{sets};
ghost use Rattle.items.specs.Layout.{Shaped};
ghost use Rattle.language.specs.Grammar.{Grammar, IsNonterminal};
ghost use Rattle.generate_loads.specs.Load.{stepped, choice};
ghost use Rattle.generate_heights.specs.Heights.{Source, HoldsHeights};
ghost use Rattle.generate_heights.specs.Rows.{rows_of};
ghost use Rattle.generate_choices.specs.Choices.{HoldsChoices, Choosable};
ghost use Rattle.generate_choices.specs.Stored.{Stored, Keeps};

use generate_heights::{find_heights, shortest_rule};

// So many bytes hold the choices: by symbol its height, where its rules begin, how many there are, and the shortest; then the rules
// by left side.
pub const CHOICES: usize = 640;

const STARTS: usize = 128;

const COUNTS: usize = 256;

const SHORTEST: usize = 384;

const RULES: usize = 512;

// A rule, and the state after it was chosen.
#[derive(Clone, Copy)]
pub struct Chosen {
    pub rule: usize,
    pub state: u32,
}

// a * b modulo 2^32.
fn wrapping_mul_u32(a: u32, b: u32) -> u32
    ensures { result ≡ (a * b) % 4294967296 }
{
    ((a as u64) * (b as u64) % 4294967296) as u32
}

// The state after `state`.
fn next_state(state: u32) -> u32
    ensures { result ≡ stepped state }
{
    std::num::wrapping_add_u32(wrapping_mul_u32(1103515245, state), 12345)
}

// The draw of a state, below `count`.
fn draw(state: u32, count: usize) -> usize
    requires { (1 ≤ count) × (count < 256) }
    ensures { (result ≡ state / 65536 % count) × (result < count) }
{
    (state / 65536 % (count as u32)) as usize
}

// Lists the rules of x behind `at` others, and answers how many are listed then.
fn list_rules(items: &[u8], rules: usize, x: usize, at: usize, choices: &mut [u8]) -> usize
    requires shaped { (Shaped items.now rules) × (rules ≤ 127) }
    requires in_bounds { (640 ≤ length choices.old) × (at + length (rows_of items.now x 1 rules) ≤ 128) }
    ensures value { result ≡ at + length (rows_of items.now x 1 rules) }
    ensures choices_after { choices.new ≡ sets choices.old (512 + at) (rows_of items.now x 1 rules) }
{
    let mut next = at;
    for i in 1..rules + 1 {
        if items::left_of(items, rules, i) == x {
            choices[RULES + next] = i as u8;
            next += 1;
        }
    }
    next
}

// Stores the choices of x, with its rules behind `at` others, and answers how many are listed then.
fn store_choices(items: &[u8], rules: usize, x: usize, at: usize, choices: &mut [u8]) -> usize
    requires shaped { (Shaped items.now rules) × (rules ≤ 127) }
    requires in_bounds { (640 ≤ length choices.old) × (at + length (rows_of items.now x 1 rules) ≤ 128) × (x < 128) }
    ensures value { result ≡ at + length (rows_of items.now x 1 rules) }
    ensures stored { Stored items.now rules choices.old choices.new x at }
    ensures keeps { Keeps x at choices.old choices.new }
{
    let shortest = shortest_rule(items, rules, choices, x);
    let next = list_rules(items, rules, x, at, choices);
    choices[STARTS + x] = at as u8;
    choices[COUNTS + x] = (next - at) as u8;
    choices[SHORTEST + x] = shortest as u8;
    next
}

// Stores the choices of each nonterminal behind the heights.
fn list_choices(items: &[u8], nonterminals: usize, rules: usize, choices: &mut [u8])
    requires shaped { (Shaped items.now rules) × (rules ≤ 127) }
    requires in_bounds { (640 ≤ length choices.old) × (nonterminals ≤ 64) }
    ensures { (g : Grammar) → Source items.now rules g → HoldsHeights g choices.old → g.nonterminals ≡ nonterminals → HoldsChoices g choices.new }
{
    let mut at: usize = 0;
    for x in 64..64 + nonterminals {
        at = store_choices(items, rules, x, at, choices);
    }
}

// The choices of a grammar in memory.
pub fn find_choices(
    items: &[u8],
    terminals: usize,
    nonterminals: usize,
    rules: usize,
    choices: &mut [u8],
)
    requires shaped { (Shaped items.now rules) × (rules ≤ 127) }
    requires nonterminals_bound { nonterminals ≤ 64 }
    requires in_bounds { 640 ≤ length choices.old }
    ensures { (g : Grammar) → Source items.now rules g → g.terminals ≡ terminals → g.nonterminals ≡ nonterminals → HoldsChoices g choices.new }
{
    find_heights(items, terminals, nonterminals, rules, choices);
    list_choices(items, nonterminals, rules, choices);
}

// The rule of nonterminal x at this depth.
pub fn choose(choices: &[u8], x: usize, depth: usize, state: u32) -> Chosen
    requires { Choosable choices.now x }
    ensures { (g : Grammar) → HoldsChoices g choices.now → IsNonterminal g x → (result.rule ≡ (choice g depth x state).rule) × (result.state ≡ (choice g depth x state).state) }
{
    if depth == 0 {
        return Chosen {
            rule: choices[SHORTEST + x] as usize,
            state,
        };
    }
    let next = next_state(state);
    let start = choices[STARTS + x] as usize;
    let drawn = draw(next, choices[COUNTS + x] as usize);
    Chosen {
        rule: choices[RULES + start + drawn] as usize,
        state: next,
    }
}

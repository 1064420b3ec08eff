// Whether a grammar in memory is reduced: each nonterminal productive and reachable.
// Inner: for `grammar` and `analysis`, on rules in memory.
#![tactic(auto)]

ghost use Rattle.std.specs.Prelude.{◌≡◌, ◌+◌, ◌<◌, ◌≤◌, length, replicate};
ghost use Rattle.language.specs.Grammar.{Grammar};
ghost use Rattle.items.specs.Layout.{Shaped, Holds};
ghost use Rattle.fixpoint.specs.Flags.{On, Marks, Decides};
ghost use Rattle.fixpoint.specs.Least.{Least};
ghost use Rattle.grammar_reduction.specs.InMemory.{productions_in, reaching_in, AllOn, Upto};
ghost use Rattle.grammar_reduction.specs.Reduced.{lowest_unproductive, lowest_unreachable};

use fixpoint::Found;
use symbol::{SYMBOLS, Symbol};

// Whether every symbol of item i is flagged.
fn all_flagged(m: &[u8], items: usize, i: usize, flags: &[u8]) -> bool
    requires shaped { Shaped m.now items }
    requires i_le { i ≤ items }
    requires flags_len { length flags.now ≡ 128 }
    ensures { Decides (AllOn m.now i flags.now) result }
{
    for k in 0..items::length_of(m, items, i) {
        if flags[items::symbol_of(m, items, i, k)] == 0 {
            return false;
        }
    }
    true
}

// Flags the left side of each rule whose right side is flagged, until none is left to flag.
pub fn close_productions(m: &[u8], rules: usize, flags: &mut [u8])
    requires shaped { Shaped m.now rules }
    requires flags_len { length flags.old ≡ 128 }
    ensures { Marks (Least (productions_in m.now rules) (On flags.old)) flags.new }
{
    'passes: loop {
        let mut added: usize = 0;
        'rules: for i in 1..rules + 1 {
            let left = items::left_of(m, rules, i);
            if flags[left] == 0 && all_flagged(m, rules, i, flags) {
                flags[left] = 1;
                added += 1;
            }
        }
        if added == 0 {
            return;
        }
    }
}

// Flags the codes 1 to t.
pub fn flag_terminals(t: usize, flags: &mut [u8])
    requires t_bound { t ≤ 63 }
    requires flags_value { flags.old ≡ replicate 128 0 }
    ensures { Marks (Upto t) flags.new }
{
    for x in 1..t + 1 {
        flags[x] = 1;
    }
}

// The lowest nonterminal that derives no string of terminals.
pub fn lowest_unproductive(m: &[u8], terminals: usize, nonterminals: usize, rules: usize) -> Found
    requires shaped { Shaped m.now rules }
    requires terminals_bound { (terminals ≤ 63) × (nonterminals ≤ 64) }
    ensures { (g : Grammar) → Holds m.now rules g → g.terminals ≡ terminals → g.nonterminals ≡ nonterminals → result ≡ lowest_unproductive g }
{
    let mut flags = [0u8; SYMBOLS];
    flag_terminals(terminals, &mut flags);
    close_productions(m, rules, &mut flags);
    fixpoint::lowest_unset(
        &flags,
        Symbol::FIRST_NONTERMINAL,
        Symbol::FIRST_NONTERMINAL + nonterminals,
    )
}

// Flags the symbols of each rule whose left side is flagged, until none is left to flag.
fn close_reaching(m: &[u8], rules: usize, flags: &mut [u8])
    requires shaped { Shaped m.now rules }
    requires flags_len { length flags.old ≡ 128 }
    ensures { Marks (Least (reaching_in m.now rules) (On flags.old)) flags.new }
{
    'passes: loop {
        let mut reached: usize = 0;
        'rules: for i in 1..rules + 1 {
            if flags[items::left_of(m, rules, i)] == 0 {
                continue;
            }
            'symbols: for k in 0..items::length_of(m, rules, i) {
                let x = items::symbol_of(m, rules, i, k);
                if flags[x] == 0 {
                    flags[x] = 1;
                    reached += 1;
                }
            }
        }
        if reached == 0 {
            return;
        }
    }
}

// The lowest nonterminal that is not reached from the goal.
pub fn lowest_unreachable(m: &[u8], goal: usize, nonterminals: usize, rules: usize) -> Found
    requires shaped { Shaped m.now rules }
    requires goal_bound { (goal < 128) × (nonterminals ≤ 64) }
    ensures { (g : Grammar) → Holds m.now rules g → g.goal ≡ goal → g.nonterminals ≡ nonterminals → result ≡ lowest_unreachable g }
{
    let mut flags = [0u8; SYMBOLS];
    flags[goal] = 1;
    close_reaching(m, rules, &mut flags);
    fixpoint::lowest_unset(
        &flags,
        Symbol::FIRST_NONTERMINAL,
        Symbol::FIRST_NONTERMINAL + nonterminals,
    )
}

// Tables in memory: how many there are of each thing; what the slices hold stands in specs/.
#![tactic(auto)]

// The numbers of items, which are the rules and the entries, of kernel lines, of codes and of states.
#[derive(Clone, Copy)]
pub struct Totals {
    pub items: usize,
    pub rules: usize,
    pub entries: usize,
    pub lines: usize,
    pub codes: usize,
    pub states: usize,
}

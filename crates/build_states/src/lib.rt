// The builder's states and their smallest lookaheads, as definitions; that the states are the kernel sets that are reached, and that lookaheads are
// decided: theory only, in specs/ and proofs/.
#![tactic(auto)]

// Where the definitions stand; the crate has no code of its own.
pub fn theory() {}

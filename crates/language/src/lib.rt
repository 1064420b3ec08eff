// Grammars, derivations and sentences: theory only, in specs/ and proofs/.
#![tactic(auto)]

// Where the grammar's theory stands; the crate has no code of its own.
pub fn theory() {}

// Test loads as a definition; that heights are least, and that a load is a derivation: theory only, in specs/ and proofs/.
#![tactic(auto)]

// Where the definitions stand; the crate has no code of its own.
pub fn theory() {}

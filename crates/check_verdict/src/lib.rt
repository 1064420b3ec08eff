// The construction decided, and the verdict on a table as a definition: theory only, in specs/ and proofs/.
#![tactic(auto)]

// Where the decisions stand; the crate has no code of its own.
pub fn theory() {}

// Accepted table books are determined by their grammar and their records: theory only, in specs/ and proofs/.
#![tactic(auto)]

// Where the laws stand; the crate has no code of its own.
pub fn theory() {}

// What holds of every grammar and table that the definition of table books reads: theory only, in specs/ and proofs/.
#![tactic(auto)]

// Where the laws stand; the crate has no code of its own.
pub fn theory() {}

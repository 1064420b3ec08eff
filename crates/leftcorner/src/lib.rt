// The left-corner construction, its machine, and demand 3 for every table that meets it: theory only, in specs/ and proofs/.
#![tactic(auto)]

// Where the theory stands; the crate has no code of its own.
pub fn theory() {}

// The text of a table reads back as that table: theory only, in proofs/.
#![tactic(auto)]

// Where the laws stand; the crate has no code of its own.
pub fn theory() {}

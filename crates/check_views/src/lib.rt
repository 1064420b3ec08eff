// What the reader of table books leaves in memory is what the check asks of it and a walk is promised: theory only, in proofs/.
#![tactic(auto)]

// Where the laws stand; the crate has no code of its own.
pub fn theory() {}

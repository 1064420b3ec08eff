// What the builder promises of every grammar book: theory only, in specs/Promise.antt.
#![tactic(auto)]

// Where the laws stand; the crate has no code of its own.
pub fn theory() {}

// What the generator promises of every load: theory only, in specs/Promise.antt.
#![tactic(auto)]

// Where the laws stand; the crate has no code of its own.
pub fn theory() {}

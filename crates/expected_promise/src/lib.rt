// What a list of what could have come promises, for all accepted tables: theory only, in specs/Promise.antt.
#![tactic(auto)]

// Where the laws stand; the crate has no code of its own.
pub fn theory() {}

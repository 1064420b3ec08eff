// What the bound on a listing promises of sessions: theory only, in specs/Promise.antt.
#![tactic(auto)]

// Where the laws stand; the crate has no code of its own.
pub fn theory() {}

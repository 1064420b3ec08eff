// What a bank's own letters promise of letters books and sessions: theory only, in specs/Promise.antt.
#![tactic(auto)]

// Where the laws stand; the crate has no code of its own.
pub fn theory() {}

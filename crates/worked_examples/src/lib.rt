// Document 01's 'Sessions and books to try' that are proved: theory only, in specs/.
#![tactic(auto)]

// Where the theorems stand; the crate has no code of its own.
pub fn theory() {}

// The theorems that a customer relies on, on one page: specs/Theorems.antt. Theory only.
#![tactic(auto)]

// Where the theorems stand; the crate has no code of its own.
pub fn theory() {}

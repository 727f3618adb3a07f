//! What recovery needs of the volumes, and that the engine invariant gives it bank by bank, of each image that shows its
//! bank's list.
#![tactic(auto)]

/// The laws. The functions do nothing; their contracts are the laws.
pub mod laws;

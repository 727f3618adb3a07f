//! Notes of values of which callers know only that there is one: a call finds it, and from then on contracts name it.
#![tactic(auto)]

mod fact;

pub use fact::{Fact, found};

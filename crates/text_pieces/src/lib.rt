//! A text in pieces: the long lists of a report are printed side by side, on threads. See docs/ENGINE.md.
#![tactic(auto)]

mod beside;
mod lines;
mod pieces;

pub use pieces::Pieces;

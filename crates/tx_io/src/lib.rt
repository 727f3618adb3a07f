//! Where a program's bytes come from and go to, and when that may fail (`docs/GUARANTEES.md`).
#![tactic(auto)]

mod faults;
mod memory;
mod stream;
mod texts;
mod traits;

pub use memory::{MemSink, MemSource};
pub use stream::{StdSink, StdSource};
pub use texts::{ReadStop, read_all, write_all};
pub use traits::{Failed, Memory, Sink, Source};

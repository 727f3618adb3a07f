//! How a check of a report ends, with the line that it writes then.
ghost use Rattle.std.specs.Prelude.{◌≡◌, IfOk};
ghost use Rattle.report_check.specs.Checks.{status_of, text_of, unlawful_text};

use report_text::Text;
use std::alloc::Global;
use tx_model::Memory;

/// How a check ends.
#[derive(Drop)]
pub enum Ending {
    Lawful,
    /// The line that tells the first unlawful line.
    Unlawful(Vec<u8>),
    ReadFault,
    Memory,
}

impl Ending {
    /// The status that the tool answers.
    pub fn status(&self) -> u8
        ensures { result ≡ status_of self.now }
    {
        match self {
            Ending::Lawful => 0,
            Ending::ReadFault => 3,
            Ending::Memory => 6,
            Ending::Unlawful(_) => 8,
        }
    }

    /// The line that it writes.
    pub fn text(&self) -> &[u8]
        ensures { result.now ≡ text_of self.now }
    {
        match self {
            Ending::Lawful => b"lawful\n",
            Ending::Unlawful(text) => text.as_slice(),
            Ending::ReadFault => b"read-fault\n",
            Ending::Memory => b"memory\n",
        }
    }
}

/// The line that tells the first unlawful line.
#[tactic(auto, unfolding(report_text::specs::Words::line_text, report_text::specs::Words::more))]
pub fn unlawful_text(alloc: Global, line: u64) -> Result<Vec<u8>, Memory>
    ensures { IfOk result (λ text. text.items ≡ unlawful_text line) }
{
    let mut text = Text::new(alloc);
    text.put(b"unlawful")?;
    text.number(line)?;
    text.end_line()?;
    Ok(text.into_bytes())
}

//! How a run of the tool ends, with the text that it writes then.
ghost use Rattle.std.specs.Prelude.{◌≡◌, IfOk};
ghost use Rattle.session_run.specs.Tool.{TellsRefusal, TellsStop, damage_text, status_of, text_of, unread_by};

use crate::stop::Stopped;
use engine_life::NoLife;
use report_text::Text;
use script_source::NoScript;
use std::alloc::Global;
use tx_model::Memory;

/// How a run ends.
#[derive(Drop)]
pub enum Ending {
    /// The report is written.
    Report,
    /// The line that tells what a generated script did.
    Summary(Vec<u8>),
    /// The line that tells where the bytes are refused, and why.
    NoScript(Vec<u8>),
    ReadFault,
    /// The sink failed.
    WriteFault,
    Memory,
    /// The media or a volume failed before a life began, or at its crash.
    Device,
    /// The line that tells at which place the log is damaged.
    Damaged(Vec<u8>),
    /// The log has no room for a life's first checkpoint.
    Full,
}

impl Ending {
    /// The status that the tool answers.
    pub fn status(&self) -> u8
        ensures { result ≡ status_of self.now }
    {
        match self {
            Ending::Report | Ending::Summary(_) => 0,
            Ending::NoScript(_) => 1,
            Ending::ReadFault => 3,
            Ending::WriteFault => 4,
            Ending::Device => 5,
            Ending::Memory => 6,
            Ending::Damaged(_) => 7,
            Ending::Full => 9,
        }
    }

    /// The text that it writes last.
    pub fn text(&self) -> &[u8]
        ensures { result.now ≡ text_of self.now }
    {
        match self {
            Ending::Report | Ending::WriteFault => b"",
            Ending::Summary(text) => text.as_slice(),
            Ending::NoScript(text) => text.as_slice(),
            Ending::ReadFault => b"read-fault\n",
            Ending::Device => b"device\n",
            Ending::Memory => b"memory\n",
            Ending::Damaged(text) => text.as_slice(),
            Ending::Full => b"log-full\n",
        }
    }
}

/// The line that tells at which place the log is damaged.
#[tactic(auto, unfolding(report_text::specs::Words::line_text, report_text::specs::Words::more))]
fn damage_text(alloc: Global, at: u64) -> Result<Vec<u8>, Memory>
    ensures { IfOk result (λ text. text.items ≡ damage_text at) }
{
    let mut text = Text::new(alloc);
    text.put(b"damaged")?;
    text.number(at)?;
    text.end_line()?;
    Ok(text.into_bytes())
}

/// The ending where the source gave no script.
pub fn unread(refusal: NoScript) -> Ending
    ensures { result ≡ unread_by refusal }
{
    match refusal {
        NoScript::Refused(text) => Ending::NoScript(text),
        NoScript::ReadFault => Ending::ReadFault,
        NoScript::Memory => Ending::Memory,
    }
}

/// The ending where a run stopped.
pub fn stopped(alloc: Global, stop: Stopped) -> Ending
    ensures { TellsStop stop result }
{
    match stop {
        Stopped::Sink => Ending::WriteFault,
        Stopped::NoLife(refusal) => unopened(alloc, refusal),
    }
}

/// The ending where no life was opened.
pub fn unopened(alloc: Global, refusal: NoLife) -> Ending
    ensures { TellsRefusal refusal result }
{
    match refusal {
        NoLife::Device => Ending::Device,
        NoLife::Memory => Ending::Memory,
        NoLife::Full => Ending::Full,
        NoLife::Damaged { at } => match damage_text(alloc, at) {
            Ok(text) => Ending::Damaged(text),
            Err(Memory) => Ending::Memory,
        },
    }
}

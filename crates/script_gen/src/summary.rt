//! What the run of a generated script did.
ghost use Rattle.std.specs.Prelude.{◌≡◌, [], ◌∷◌, ◌++◌, IfOk, OnOk, codes, cond};
ghost use Rattle.std.specs.Fmt.{decimal};
ghost use Rattle.report_text.specs.Words.{more};
ghost use Rattle.script_gen.specs.Counts.{AreFew, counted, counts_of, first_counts, gives_id, is_abort, is_commit, is_snap, is_undo, last_counts, summary_by, summary_text};

use report_text::Text;
use std::alloc::Global;
use tx_model::{Event, Memory};

/// What a run did, by its report.
#[derive(Clone, Copy, Debug, PartialEq, Eq)]
pub struct Summary {
    /// The commands.
    pub commands: u64,
    /// The ids that transactions and savepoints were given.
    pub ids: u64,
    /// The savepoints that were rolled back and had an id.
    pub undone: u64,
    /// The transactions with an id that committed.
    pub commits: u64,
    /// Those that aborted.
    pub aborts: u64,
    /// The snapshots that were taken.
    pub snaps: u64,
    /// The verdicts, `visible` or `hidden`.
    pub sees: u64,
}

/// How many events of each kind there are that a summary tells.
#[derive(Clone, Copy)]
pub struct Counts {
    ids: usize,
    undone: usize,
    commits: usize,
    aborts: usize,
    snaps: usize,
}

fn one_if(yes: bool) -> usize
    ensures { result ≡ cond yes 1 0 }
{
    if yes { 1 } else { 0 }
}

fn gives_id(event: &Event) -> bool
    ensures { result ≡ gives_id event.now }
{
    matches!(event, Event::Id { .. } | Event::Sub { .. })
}

fn is_undo(event: &Event) -> bool
    ensures { result ≡ is_undo event.now }
{
    matches!(event, Event::Undo { .. })
}

fn is_commit(event: &Event) -> bool
    ensures { result ≡ is_commit event.now }
{
    matches!(event, Event::Commit { .. })
}

fn is_abort(event: &Event) -> bool
    ensures { result ≡ is_abort event.now }
{
    matches!(event, Event::Abort { .. })
}

fn is_snap(event: &Event) -> bool
    ensures { result ≡ is_snap event.now }
{
    matches!(event, Event::Snap { .. })
}

/// The counts with one event more.
fn counted(counts: Counts, event: &Event) -> Counts
    requires few { AreFew counts }
    ensures { result ≡ counted event.now counts }
{
    Counts {
        ids: counts.ids + one_if(gives_id(event)),
        undone: counts.undone + one_if(is_undo(event)),
        commits: counts.commits + one_if(is_commit(event)),
        aborts: counts.aborts + one_if(is_abort(event)),
        snaps: counts.snaps + one_if(is_snap(event)),
    }
}

/// Counts the events of each kind. A history is long, so it goes over it once.
fn counts_of(history: &[Event]) -> Counts
    ensures { result ≡ counts_of history.now }
{
    let mut counts = Counts {
        ids: 0,
        undone: 0,
        commits: 0,
        aborts: 0,
        snaps: 0,
    };
    for event in history {
        counts = counted(counts, event);
    }
    counts
}

impl Summary {
    /// The summary of a history, and of so many commands of which so many were answered a verdict.
    pub fn of(history: &[Event], commands: u64, sees: u64) -> Summary
        ensures { result ≡ summary_by history.now commands sees }
    {
        let counts = counts_of(history);
        Summary {
            commands,
            ids: counts.ids as u64,
            undone: counts.undone as u64,
            commits: counts.commits as u64,
            aborts: counts.aborts as u64,
            snaps: counts.snaps as u64,
            sees,
        }
    }

    #[tactic(auto, using(report_text::proofs::MoreWords::then_more))]
    fn put_first(&self, text: &mut Text) -> Result<(), Memory>
        ensures ok { OnOk result (text.new ≡ text.old ++ more (first_counts self.now)) }
    {
        text.number(self.commands)?;
        text.named(b"ids", self.ids)?;
        text.named(b"undone", self.undone)
    }

    #[tactic(auto, using(report_text::proofs::MoreWords::then_more))]
    fn put_ends(&self, text: &mut Text) -> Result<(), Memory>
        ensures ok { OnOk result (text.new ≡ text.old
            ++ more (codes "commits" ∷ decimal self.now.commits ∷ codes "aborts" ∷ decimal self.now.aborts ∷ [])) }
    {
        text.named(b"commits", self.commits)?;
        text.named(b"aborts", self.aborts)
    }

    #[tactic(auto, using(report_text::proofs::MoreWords::then_more))]
    fn put_last(&self, text: &mut Text) -> Result<(), Memory>
        ensures ok { OnOk result (text.new ≡ text.old ++ more (last_counts self.now)) }
    {
        self.put_ends(text)?;
        text.named(b"snaps", self.snaps)?;
        text.named(b"sees", self.sees)
    }

    /// The line that tells it.
    #[tactic(auto, using(report_text::proofs::MoreWords::then_more), unfolding(crate::specs::Counts::summary_text, report_text::specs::Words::line_text))]
    pub fn text(&self, alloc: Global) -> Result<Vec<u8>, Memory>
        ensures { IfOk result (λ text. text.items ≡ summary_text self.now) }
    {
        let mut text = Text::new(alloc);
        text.put(b"commands")?;
        self.put_first(&mut text)?;
        self.put_last(&mut text)?;
        text.end_line()?;
        Ok(text.into_bytes())
    }
}

//! Whether the log has room for a record.
ghost use Rattle.std.specs.Prelude.{◌≡◌, ◌↔◌, ◌-◌, ◌^◌, IsTrue, drop, min};
ghost use Rattle.tx_events.specs.RecordSize.{record_size, records_size};
ghost use Rattle.tx_model.specs.declared.report.Life.{Life};
ghost use Rattle.report_law.specs.Answers.{HasNoRoom};
ghost use Rattle.reply_rules.specs.Rooms.{IsRoomOf, listed_size};

use tx_events::Rec;
use tx_model::Life;

/// Where the log's next gate stood at the life's end, and how many bytes of records wait behind it; of more than 2^64 - 1
/// bytes this number.
#[derive(Clone, Copy, Debug, PartialEq, Eq)]
pub struct Room {
    pub end: u64,
    pub waiting: u64,
}

/// The size of a record with a list of so many items, each of so many bytes.
fn listed_size(head: u64, each: u64, count: usize) -> u64
    ensures { result ≡ listed_size head each count }
{
    head.saturating_add(each.saturating_mul(count as u64))
}

/// How many bytes a record takes in the log.
fn record_size(rec: &Rec) -> u64
    ensures { result ≡ min (record_size rec.now) (2 ^ 64 - 1) }
{
    match rec {
        Rec::Commit { subs, .. } => listed_size(13, 8, subs.items().len()),
        Rec::Abort { subs, .. } => listed_size(13, 8, subs.items().len()),
        Rec::Multi { members, .. } => listed_size(21, 9, members.items().len()),
        Rec::Checkpoint { .. } => 57,
        Rec::Truncate { .. } => 25,
    }
}

fn records_size(recs: &[Rec]) -> u64
    ensures { result ≡ min (records_size recs.now) (2 ^ 64 - 1) }
{
    let mut sum: u64 = 0;
    for rec in recs {
        sum = sum.saturating_add(record_size(rec));
    }
    sum
}

/// What the life's log holds at its end, of which the flushed number tells how much waits.
pub fn room_of(life: &Life) -> Room
    ensures { IsRoomOf life.now result }
{
    let recs = life.recs.items();
    let flushed = life.flushed.saturating_sub(life.from);
    let mut waiting = 0;
    if flushed < recs.len() as u64 {
        waiting = records_size(&recs[flushed as usize..]);
    }
    Room {
        end: life.end,
        waiting,
    }
}

impl Room {
    /// Whether there is no room for a record of so many bytes.
    pub fn lacks(self, size: u64) -> bool
        ensures { (life : Life) → IsRoomOf life self → IsTrue result ↔ HasNoRoom life size }
    {
        let taken = self.waiting.saturating_add(size);
        let gate = self.end.saturating_add(6);
        taken > 0xffff_ffff || gate.saturating_add(taken) > 1 << 40
    }
}

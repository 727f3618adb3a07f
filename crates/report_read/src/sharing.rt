//! Snapshots of a report that hold the same share one block.
ghost use Rattle.std.specs.Prelude.{◌≡◌, IfOk, IfSome, true};

use tx_model::{Copied, KeptLine, Line, Memory, Reply, SharedSnap};

/// So many lines back another snapshot is looked for.
const NEAR: usize = 4;

fn hold_same(one: &SharedSnap, other: &SharedSnap) -> bool
    ensures { result ≡ true → one.now ≡ other.now }
{
    one.xmin() == other.xmin()
        && one.xmax() == other.xmax()
        && one.overflowed() == other.overflowed()
        && one.xip() == other.xip()
        && one.subxip() == other.subxip()
}

/// What the line's snapshot holds, where that is the same. The copy shares its block.
fn same_of(line: &KeptLine, lists: &SharedSnap) -> Result<Option<SharedSnap>, Memory>
    ensures { IfOk result (λ found. IfSome found (λ s. s ≡ lists.now)) }
{
    let look = line.reply();
    match look.reply() {
        Reply::Snapped { lists: held } if hold_same(held, lists) => Ok(Some(held.copy()?)),
        _ => Ok(None),
    }
}

fn shared_with(lines: &[KeptLine], lists: SharedSnap) -> Result<SharedSnap, Memory>
    ensures { IfOk result (λ s. s ≡ lists) }
{
    if lists.is_idle() {
        return Ok(lists);
    }
    for line in &lines[lines.len().saturating_sub(NEAR)..] {
        if let Some(same) = same_of(line, &lists)? {
            return Ok(same);
        }
    }
    Ok(lists)
}

/// The same line. Where it tells what a snapshot holds, it shares that with one of the last lines that tells the same:
/// a session often takes one snapshot after another while others run.
pub fn shared(lines: &[KeptLine], line: Line) -> Result<Line, Memory>
    ensures { IfOk result (λ l. l ≡ line) }
{
    let Line { by, command, reply } = line;
    let reply = match reply {
        Reply::Snapped { lists } => Reply::Snapped {
            lists: shared_with(lines, lists)?,
        },
        other => other,
    };
    Ok(Line { by, command, reply })
}

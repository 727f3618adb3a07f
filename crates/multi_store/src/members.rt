// Which lists of members a multixact may have.
ghost use Rattle.std.specs.Prelude.{◌≡◌};
ghost use Rattle.std.specs.List.{count_by};
ghost use Rattle.tx_events.specs.Multis.{is_updater};
ghost use Rattle.multi_store.specs.Members.{ChecksMembers};

use tx_events::{Member, MemberList, Mode, Refusal};

/// The most members that a multixact has.
const MOST_MEMBERS: usize = 64;

/// Whether a member holds the row in a mode that at most one of them may have (`ISUPDATE_from_mxstatus`).
fn is_updater(member: &Member) -> bool
    ensures { result ≡ is_updater member.now }
{
    match member.mode {
        Mode::NoKeyUpd | Mode::Upd => true,
        Mode::KeySh | Mode::Sh | Mode::ForNoKeyUpd | Mode::ForUpd => false,
    }
}

fn count_updaters(members: &[Member]) -> usize
    ensures { result ≡ count_by is_updater members.now }
{
    let mut count = 0;
    for member in members {
        if is_updater(member) {
            count += 1;
        }
    }
    count
}

/// Whether a multixact may have these members: 1 to 64, at most one of them an updater (`MultiXactIdCreateFromMembers`).
/// `MemberCount` exactly where there are none or more than 64, which is tested first; else `TwoUpdaters` exactly where
/// more than one updates.
pub fn check_members(members: &MemberList) -> Result<(), Refusal>
    ensures { ChecksMembers members.now result }
{
    let count = members.items().len();
    if count == 0 || count > MOST_MEMBERS {
        return Err(Refusal::MemberCount);
    }
    if count_updaters(members.items()) > 1 {
        return Err(Refusal::TwoUpdaters);
    }
    Ok(())
}

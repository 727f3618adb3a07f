//! What a dump shows of a multixact.
ghost use Rattle.std.specs.Prelude.{◌≡◌, ◌↔◌, ◌≤◌, ◌<◌, IsTrue, length};
ghost use Rattle.tx_events.specs.Ids.{low_half};
ghost use Rattle.tx_events.specs.Modes.{mode_number};
ghost use Rattle.store_pages.specs.Layouts.{word_place_of};
ghost use Rattle.tx_events.specs.Pages.{id_at, member_place, mode_at, offset_page};
ghost use Rattle.report_law.specs.Dumps.{HasByte, HasWord};
ghost use Rattle.dump_rules.specs.Gens.{AreGens, IsGenMark};
ghost use Rattle.dump_rules.specs.Shown.{Behind, HasMember, ShowsMember, ShowsOffset, member_in};

use crate::bytes::{has_byte, has_word};
use crate::gens::{GenMark, count_upto, place_of};
use store_pages::{OFFSETS_PER_PAGE, id_position, member_page, mode_position};
use tx_events::{Member, MultiEvent};

/// The 32 bits of a number that are stored.
fn low(number: u64) -> u32
    ensures { result ≡ low_half number }
{
    (number % 4_294_967_296) as u32
}

/// Whether it was given before this place to a command that was answered with it.
fn is_given_to(g: GenMark, multi_place: u64) -> bool
    ensures { IsTrue result ↔ (IsTrue g.ok × (g.place < multi_place)) }
{
    g.ok && g.place < multi_place
}

/// Whether the bytes show this offset of the multixact, where it stands on the page.
fn shows_offset_of(page: u32, at: u64, bytes: &[u8], multi: u64, offset: u64) -> bool
    ensures { IsTrue result ↔ (offset_page (low_half multi) ≡ page → HasWord at bytes.now (word_place_of multi) (low_half offset)) }
{
    let half = low(multi);
    if half / OFFSETS_PER_PAGE != page {
        return true;
    }
    let word = 4 * u64::from(half % OFFSETS_PER_PAGE);
    has_word(at, bytes, word, low(offset))
}

/// Whether the bytes show the offset of this multixact, if a command that was answered with it was given it before this
/// place.
pub fn shows_offset(
    gens: &[GenMark],
    multi_place: u64,
    page: u32,
    at: u64,
    bytes: &[u8],
    multi: u64,
) -> bool
    ghost b: { Behind }
    requires gens { AreGens b.ok b.multis gens.now }
    requires place { multi_place ≡ b.multi_place }
    ensures { IsTrue result ↔ ShowsOffset b page at bytes.now multi }
{
    match place_of(gens, multi) {
        Some(k) => {
            let g = gens[k];
            if !is_given_to(g, multi_place) {
                return true;
            }
            shows_offset_of(page, at, bytes, multi, g.offset)
        }
        None => true,
    }
}

/// Whether the bytes show this member at its offset.
fn has_member(at: u64, bytes: &[u8], offset: u64, m: Member) -> bool
    ensures { IsTrue result ↔ (HasByte at bytes.now (mode_at (member_place (low_half offset))) (mode_number m.mode) × HasWord at bytes.now (id_at (member_place (low_half offset))) (low_half m.id)) }
{
    if !has_byte(
        at,
        bytes,
        u64::from(mode_position(low(offset))),
        m.mode.number(),
    ) {
        return false;
    }
    has_word(
        at,
        bytes,
        u64::from(id_position(low(offset))),
        m.id.low().number,
    )
}

/// The i-th member of the multixact that the event gives.
fn member_in(event: &MultiEvent, i: u64) -> Option<Member>
    ensures { result ≡ member_in event.now i }
{
    match event {
        MultiEvent::Gen { members, .. } => members.items().get(i as usize).copied(),
        MultiEvent::Hold { .. } => None,
        MultiEvent::Unhold { .. } => None,
        MultiEvent::Raise { .. } => None,
    }
}

/// Whether the bytes show the member of this multixact that stands at the offset.
fn shows_member_of(events: &[MultiEvent], g: GenMark, at: u64, bytes: &[u8], offset: u64) -> bool
    ghost b: { Behind }
    requires events { events.now ≡ b.multis }
    requires mark { IsGenMark b.ok b.multis g }
    requires from { g.offset ≤ offset }
    ensures { IsTrue result ↔ HasMember b.multis at bytes.now g offset }
{
    match member_in(&events[g.place as usize], offset - g.offset) {
        Some(m) => has_member(at, bytes, offset, m),
        None => true,
    }
}

/// Whether the bytes show the member at this offset, if it is one of a multixact that was given before this place to a
/// command that was answered with it.
pub fn shows_member(
    events: &[MultiEvent],
    gens: &[GenMark],
    multi_place: u64,
    page: u32,
    at: u64,
    bytes: &[u8],
    offset: u64,
) -> bool
    ghost b: { Behind }
    requires events { events.now ≡ b.multis }
    requires gens { AreGens b.ok b.multis gens.now }
    requires place { multi_place ≡ b.multi_place }
    ensures { IsTrue result ↔ ShowsMember b page at bytes.now offset }
{
    let count = count_upto(gens, offset);
    if count == 0 {
        return true;
    }
    let g = gens[count - 1];
    if offset < g.offset || g.end <= offset {
        return true;
    }
    if !is_given_to(g, multi_place) {
        return true;
    }
    if member_page(low(offset)) != page {
        return true;
    }
    shows_member_of(events, g, at, bytes, offset)
}

//! Numbers as words.
ghost use Rattle.std.specs.Prelude.{◌≡◌, ◌++◌, OnOk};
ghost use Rattle.report_text.specs.Words.{more, numbers};

use text_bytes::Bytes;
use tx_events::{FullXid, Memory};

/// The numbers, each behind a space.
#[tactic(auto, using(crate::proofs::MoreWords::then_one_number, crate::proofs::MoreWords::no_more))]
pub fn push_numbers(bytes: &mut Bytes, ids: &[FullXid]) -> Result<(), Memory>
    ensures ok { OnOk result (bytes.new ≡ bytes.old ++ more (numbers ids.now)) }
{
    for id in ids {
        bytes.number(id.number())?;
    }
    Ok(())
}

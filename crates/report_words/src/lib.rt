//! The words of a report's lines, and what they say: numbers, ids, names, members, refusals and replies. What is read
//! may be spelled otherwise than a report spells it; `report_lines` prints it again and compares.
#![tactic(auto)]

mod fits;
mod life;
mod list;
mod member;
mod names;
mod piece;
mod refusal;
mod reply;
mod unread;
mod word;

pub use fits::{
    counters_fit, fits_by, fits_checkpoint_reply, fits_dump_reply, fits_reply, id_fits, ids_fit,
    members_fit, multi_fits, pairs_fit,
};
pub use life::{counters_at, snap_at};
pub use list::{count_of, full_multi, named_at, read_ids, read_list};
pub use member::{read_members, read_pairs, read_verdicts};
pub use names::{by_at, name_place, name_place_near};
pub use piece::small;
pub use refusal::refusal_at;
pub use reply::{Kind, checkpoint_reply_at, dump_reply_at, kind_of, reply_at};
pub use unread::Unread;
pub use word::{full_id, is_word, name_of, number_at, number_of, word_at};

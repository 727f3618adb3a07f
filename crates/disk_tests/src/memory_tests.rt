// That calls succeed, what a crash leaves, and which calls a fuse fails, worked out by hand.
ghost use Rattle.std.specs.Prelude.{◌≡◌, IsTrue};

use crate::calls::Answer::{self, Bytes, Counted, Done, Fails, Next, NoPage, Page, Spans};
use crate::calls::Call::{self, Counts, Log, Of, Rest};
use crate::calls::LogCall::{self, Extent, Forget, Read, Write};
use crate::calls::Mounted;
use crate::calls::PageCall::{self, After, Fill, First, Look, Remove};
use disk_core::Crash::{Kept, Lost, Torn};
use disk_core::Which::{self, Members, Offsets, Xact};
use disk_core::{Media, MemMedia};
use disk_fuse::Fuse;
use std::process::Abort;

/// Where volumes lie.
#[derive(Clone, Copy)]
enum On<'a> {
    Memory,
    /// In memory, with such a log.
    Log(&'a [u8]),
    /// In memory, over a fuse that passes so many calls of a volume.
    Fuse(u64, Which),
}

#[derive(Clone, Copy)]
struct Row<'a> {
    name: &'a str,
    on: On<'a>,
    banks: u32,
    calls: &'a [(Call<'a>, Answer)],
}

const ROWS: [Row; 13] = [
    Row {
        name: "a_crash_of_a_log_loses_keeps_or_tears_what_was_not_synced: lost",
        on: On::Memory,
        banks: 1,
        calls: &[
            (Log(Write(0, &[1, 2, 3, 4])), Done),
            (Log(LogCall::Sync), Done),
            (Log(Write(1, &[9, 9, 9, 9])), Done),
            (Log(Forget(2)), Done),
            (Call::Crash(Lost, 1), Done),
            (Log(Read(0)), Bytes(4, [1, 2, 3, 4, 0, 0, 0, 0])),
            (Log(Extent), Spans(0, 4)),
        ],
    },
    Row {
        name: "a_crash_of_a_log_loses_keeps_or_tears_what_was_not_synced: kept",
        on: On::Memory,
        banks: 1,
        calls: &[
            (Log(Write(0, &[1, 2, 3, 4])), Done),
            (Log(LogCall::Sync), Done),
            (Log(Write(1, &[9, 9, 9, 9])), Done),
            (Log(Forget(2)), Done),
            (Call::Crash(Kept, 1), Done),
            (Log(Read(0)), Bytes(5, [1, 9, 9, 9, 9, 0, 0, 0])),
            (Log(Extent), Spans(2, 5)),
        ],
    },
    Row {
        name: "a_crash_of_a_log_loses_keeps_or_tears_what_was_not_synced: torn",
        on: On::Memory,
        banks: 1,
        calls: &[
            (Log(Write(0, &[1, 2, 3, 4])), Done),
            (Log(LogCall::Sync), Done),
            (Log(Write(1, &[9, 9, 9, 9])), Done),
            (Log(Forget(2)), Done),
            (Call::Crash(Torn, 1), Done),
            (Log(Read(0)), Bytes(5, [1, 9, 3, 9, 0, 0, 0, 0])),
            (Log(Extent), Spans(2, 5)),
        ],
    },
    Row {
        name: "a_write_past_the_end_of_a_log_leaves_zeros_between",
        on: On::Log(&[7]),
        banks: 1,
        calls: &[
            (Log(Write(3, &[8])), Done),
            (Log(Read(0)), Bytes(4, [7, 0, 0, 8, 0, 0, 0, 0])),
            (Log(Read(9)), Bytes(0, [0, 0, 0, 0, 0, 0, 0, 0])),
        ],
    },
    Row {
        name: "a_crash_of_pages_loses_keeps_or_tears_each: lost",
        on: On::Memory,
        banks: 1,
        calls: &[
            (Of(Xact(0), Fill(5, 1)), Done),
            (Of(Xact(0), Fill(9, 3)), Done),
            (Of(Xact(0), PageCall::Sync), Done),
            (Of(Xact(0), Fill(5, 2)), Done),
            (Of(Xact(0), Fill(7, 2)), Done),
            (Of(Xact(0), Remove(9)), Done),
            (Call::Crash(Lost, 1), Done),
            (Of(Xact(0), Look(5)), Page([1, 1, 1, 1], 1)),
            (Of(Xact(0), Look(7)), NoPage),
            (Of(Xact(0), Look(9)), Page([3, 3, 3, 3], 3)),
        ],
    },
    Row {
        name: "a_crash_of_pages_loses_keeps_or_tears_each: kept",
        on: On::Memory,
        banks: 1,
        calls: &[
            (Of(Xact(0), Fill(5, 1)), Done),
            (Of(Xact(0), Fill(9, 3)), Done),
            (Of(Xact(0), PageCall::Sync), Done),
            (Of(Xact(0), Fill(5, 2)), Done),
            (Of(Xact(0), Fill(7, 2)), Done),
            (Of(Xact(0), Remove(9)), Done),
            (Call::Crash(Kept, 1), Done),
            (Of(Xact(0), Look(5)), Page([2, 2, 2, 2], 2)),
            (Of(Xact(0), Look(7)), Page([2, 2, 2, 2], 2)),
            (Of(Xact(0), Look(9)), NoPage),
        ],
    },
    Row {
        name: "a_crash_of_pages_loses_keeps_or_tears_each: torn",
        on: On::Memory,
        banks: 1,
        calls: &[
            (Of(Xact(0), Fill(5, 1)), Done),
            (Of(Xact(0), Fill(9, 3)), Done),
            (Of(Xact(0), PageCall::Sync), Done),
            (Of(Xact(0), Fill(5, 2)), Done),
            (Of(Xact(0), Fill(7, 2)), Done),
            (Of(Xact(0), Remove(9)), Done),
            (Call::Crash(Torn, 1), Done),
            (Of(Xact(0), Look(5)), Page([1, 2, 1, 2], 2)),
            (Of(Xact(0), Look(7)), Page([0, 2, 0, 2], 2)),
            (Of(Xact(0), Look(9)), NoPage),
        ],
    },
    Row {
        name: "pages_are_walked_in_their_order",
        on: On::Memory,
        banks: 1,
        calls: &[
            (Of(Xact(0), Fill(u32::MAX, 1)), Done),
            (Of(Xact(0), Fill(0, 1)), Done),
            (Of(Xact(0), Fill(40, 1)), Done),
            (Of(Xact(0), First), Next(Some(0))),
            (Of(Xact(0), After(0)), Next(Some(40))),
            (Of(Xact(0), After(40)), Next(Some(u32::MAX))),
            (Of(Xact(0), After(u32::MAX)), Next(None)),
        ],
    },
    Row {
        name: "a_media_of_a_log_reads_its_bytes",
        on: On::Log(&[4, 5, 6]),
        banks: 2,
        calls: &[
            (Log(Read(0)), Bytes(3, [4, 5, 6, 0, 0, 0, 0, 0])),
            (Counts, Counted([2, 2, 2, 2])),
        ],
    },
    Row {
        name: "a_media_gives_back_what_a_crash_left",
        on: On::Memory,
        banks: 1,
        calls: &[
            (Log(Extent), Spans(0, 0)),
            (Log(Write(0, &[1])), Done),
            (Of(Xact(0), Fill(0, 1)), Done),
            (Call::Crash(Kept, 1), Done),
            (Log(Extent), Spans(0, 1)),
            (Log(Write(1, &[2])), Done),
            (Of(Xact(0), Fill(0, 2)), Done),
            (Call::Crash(Lost, 1), Done),
            (Log(Extent), Spans(0, 1)),
            (Log(Write(1, &[3])), Done),
            (Of(Xact(0), Fill(0, 3)), Done),
            (Call::Crash(Torn, 9), Done),
            (Log(Read(0)), Bytes(2, [1, 3, 0, 0, 0, 0, 0, 0])),
            (Counts, Counted([1, 1, 1, 1])),
            (Of(Xact(0), Look(0)), Page([1, 3, 1, 3], 3)),
            (Rest(1), Done),
            (Log(Read(0)), Bytes(2, [1, 3, 0, 0, 0, 0, 0, 0])),
        ],
    },
    Row {
        name: "a_fuse_passes_so_many_calls_and_then_fails, and from the first crash on it never fails again",
        on: On::Fuse(2, Which::Log),
        banks: 1,
        calls: &[
            (Log(Write(0, &[1])), Done),
            (Log(Write(1, &[2])), Done),
            (Log(Write(2, &[3])), Fails),
            (Log(LogCall::Sync), Fails),
            (Of(Xact(0), Fill(0, 7)), Done),
            (Of(Xact(0), PageCall::Sync), Done),
            (Of(Xact(0), PageCall::Sync), Done),
            (Call::Crash(Kept, 1), Done),
            (Log(Write(2, &[0])), Done),
            (Log(Write(2, &[1])), Done),
            (Log(Write(2, &[2])), Done),
            (Log(Write(2, &[3])), Done),
            (Log(Write(2, &[4])), Done),
            (Log(Read(0)), Bytes(3, [1, 2, 4, 0, 0, 0, 0, 0])),
        ],
    },
    Row {
        name: "a_crash_disarms_a_fuse_that_has_not_failed",
        on: On::Fuse(1, Which::Xact(1)),
        banks: 2,
        calls: &[
            (Call::Crash(Lost, 2), Done),
            (Of(Xact(0), PageCall::Sync), Done),
            (Of(Xact(0), PageCall::Sync), Done),
            (Of(Xact(1), PageCall::Sync), Done),
            (Of(Xact(1), PageCall::Sync), Done),
        ],
    },
    Row {
        name: "a_fuse_fails_one_bank_alone",
        on: On::Fuse(0, Which::Members(1)),
        banks: 3,
        calls: &[
            (Of(Members(0), PageCall::Sync), Done),
            (Of(Members(1), PageCall::Sync), Fails),
            (Of(Members(2), PageCall::Sync), Done),
            (Of(Offsets(0), PageCall::Sync), Done),
            (Of(Offsets(1), PageCall::Sync), Done),
            (Of(Offsets(2), PageCall::Sync), Done),
            (Counts, Counted([3, 3, 3, 3])),
        ],
    },
];

fn check<M: Media + Drop>(rt: &impl Abort, media: M, row: &Row<'_>)
    requires { IsTrue (M.is_idle media) }
{
    let Ok(mut mounted) = Mounted::new(rt, media, row.banks) else {
        panic!(rt; "{}: no mount", row.name)
    };
    mounted.check(rt, row.name, row.calls);
}

#[test]
fn volumes_in_memory_answer_as_each_row_says(rt: HostRuntime) {
    let alloc = rt.alloc();
    for row in &ROWS {
        match row.on {
            On::Memory => check(&rt, MemMedia::new(alloc), row),
            On::Log(bytes) => {
                let log = Vec::from_slice(alloc, bytes).expect(&rt, "memory");
                check(&rt, MemMedia::of_log(alloc, log), row);
            }
            On::Fuse(passes, at) => {
                let inner = MemMedia::new(alloc);
                check(&rt, Fuse::new(alloc, inner, at, passes), row);
            }
        }
    }
}

// The bank over volumes in memory, and over one that counts its calls; and the bytes of the stores.
use crate::banks::Answer::{self, Done, Holds, Refused};
use crate::banks::Call::{self, *};
use crate::banks::{check, memory_bank};
use crate::counted::{IdPages, counted_bank, counts};
use crate::stores;
use disk_core::{MemPages, PageDisk};
use slru_bank::BankRefusal::{Cut, DiskFault};
use slru_bank::SlruBank;

/// Calls of a bank over a volume in memory.
#[derive(Clone, Copy)]
struct Memory<'a> {
    name: &'a str,
    calls: &'a [(Call, Answer)],
    /// The first page of the volume behind them, if a row says it.
    volume: Option<Option<u32>>,
}

/// Calls of a bank over a volume that fails each read past so many.
#[derive(Clone, Copy)]
struct Reads<'a> {
    name: &'a str,
    passes: u32,
    calls: &'a [(Call, Answer)],
    /// How often it was read and failed.
    volume: (u32, u64),
}

const IN_MEMORY: [Memory<'static>; 4] = [
    Memory {
        name: "seventeen_pages_read_back",
        calls: &[
            (Set(0, 5, 1), Done),
            (Set(1, 5, 2), Done),
            (Set(2, 5, 3), Done),
            (Set(3, 5, 4), Done),
            (Set(4, 5, 5), Done),
            (Set(5, 5, 6), Done),
            (Set(6, 5, 7), Done),
            (Set(7, 5, 8), Done),
            (Set(8, 5, 9), Done),
            (Set(9, 5, 10), Done),
            (Set(10, 5, 11), Done),
            (Set(11, 5, 12), Done),
            (Set(12, 5, 13), Done),
            (Set(13, 5, 14), Done),
            (Set(14, 5, 15), Done),
            (Set(15, 5, 16), Done),
            (Set(16, 5, 17), Done),
            (Byte(0, 5), Holds(1)),
            (Byte(1, 5), Holds(2)),
            (Byte(2, 5), Holds(3)),
            (Byte(3, 5), Holds(4)),
            (Byte(4, 5), Holds(5)),
            (Byte(5, 5), Holds(6)),
            (Byte(6, 5), Holds(7)),
            (Byte(7, 5), Holds(8)),
            (Byte(8, 5), Holds(9)),
            (Byte(9, 5), Holds(10)),
            (Byte(10, 5), Holds(11)),
            (Byte(11, 5), Holds(12)),
            (Byte(12, 5), Holds(13)),
            (Byte(13, 5), Holds(14)),
            (Byte(14, 5), Holds(15)),
            (Byte(15, 5), Holds(16)),
            (Byte(16, 5), Holds(17)),
        ],
        volume: None,
    },
    Memory {
        name: "truncated_pages_are_cut",
        calls: &[
            (Put(31, 0, 31), Done),
            (Put(32, 0, 32), Done),
            (Flush, Done),
            (Truncate(32), Done),
            (Number(31, 0), Refused(Cut { cutoff: 32 })),
            (Number(32, 0), Holds(32)),
            (Zero(31), Refused(Cut { cutoff: 32 })),
        ],
        volume: Some(Some(32)),
    },
    Memory {
        name: "zero_keeps_a_page_that_was_made",
        calls: &[
            (Put(2, 0, 7), Done),
            (Zero(2), Done),
            (Number(2, 0), Holds(0)),
            (Put(2, 0, 8), Done),
            (Zero(2), Done),
            (Zero(1), Done),
            (Number(2, 0), Holds(8)),
        ],
        volume: None,
    },
    Memory {
        name: "pages_after_one_are_cleared, and all",
        calls: &[
            (Put(1, 0, 1), Done),
            (Put(2, 0, 2), Done),
            (Put(3, 0, 3), Done),
            (Put(1, 4, 1), Done),
            (Put(2, 4, 2), Done),
            (Put(3, 4, 3), Done),
            (Flush, Done),
            (ClearAfter(2, 4), Done),
            (Number(1, 4), Holds(1)),
            (Number(2, 0), Holds(2)),
            (Number(2, 4), Holds(0)),
            (Number(3, 0), Holds(0)),
            (ClearAll, Done),
            (Number(1, 0), Holds(0)),
        ],
        volume: Some(None),
    },
];

const COUNTED: [Reads<'static>; 2] = [
    Reads {
        name: "least_recently_used_page_is_replaced: one page past sixteen takes the place of page 1",
        passes: 100,
        calls: &[
            (Byte(0, 0), Holds(0)),
            (Byte(1, 0), Holds(0)),
            (Byte(2, 0), Holds(0)),
            (Byte(3, 0), Holds(0)),
            (Byte(4, 0), Holds(0)),
            (Byte(5, 0), Holds(0)),
            (Byte(6, 0), Holds(0)),
            (Byte(7, 0), Holds(0)),
            (Byte(8, 0), Holds(0)),
            (Byte(9, 0), Holds(0)),
            (Byte(10, 0), Holds(0)),
            (Byte(11, 0), Holds(0)),
            (Byte(12, 0), Holds(0)),
            (Byte(13, 0), Holds(0)),
            (Byte(14, 0), Holds(0)),
            (Byte(15, 0), Holds(0)),
            (Byte(0, 0), Holds(0)),
            (Byte(16, 0), Holds(0)),
            (Byte(0, 0), Holds(0)),
            (Byte(2, 0), Holds(0)),
            (Byte(15, 0), Holds(0)),
        ],
        volume: (17, 0),
    },
    Reads {
        name: "failed_read_is_a_disk_fault",
        passes: 1,
        calls: &[
            (Number(0, 0), Holds(0)),
            (Number(1, 0), Refused(DiskFault)),
            (Number(0, 0), Holds(0)),
        ],
        volume: (1, 1),
    },
];

#[test]
fn banks_and_the_bytes_of_their_stores(rt: HostRuntime) {
    for row in &IN_MEMORY {
        let mut bank: SlruBank<MemPages, IdPages> = memory_bank(&rt);
        check(&rt, &mut bank, row.name, row.calls);
        if let Some(wanted) = row.volume {
            let came = bank.into_disk().after(None);
            assert!(rt; came == Ok(wanted), "{}: {came:?} came", row.name);
        }
    }
    for row in &COUNTED {
        let mut bank = counted_bank(&rt, row.passes);
        check(&rt, &mut bank, row.name, row.calls);
        let came = counts(bank);
        assert!(rt; came == row.volume, "{}: {came:?} came", row.name);
    }
    stores::status_bits_on_page(&rt);
    stores::commit_over_two_pages(&rt);
    stores::parent_bytes_on_page(&rt);
    stores::offset_bytes_on_page(&rt);
    stores::member_bytes_on_page(&rt);
}

// What a folder keeps and in which files, which folders aren't taken, and what stands after calls that fail.
use crate::calls::Answer::{self, Bytes, Counted, Done, Fails, Next, NoPage, Page, Spans};
use crate::calls::Call::{self, Counts, Log, Of, Rest};
use crate::calls::LogCall::{self, Extent, Forget, Read, Write};
use crate::calls::PageCall::{self, After, Fill, First, Look, Remove};
use crate::folders::Folder;
use crate::folders::Step::{self, *};
use disk_core::Crash::{Kept, Lost, Torn};
use disk_core::Which::{Members, Offsets, Subtrans, Xact};

const ROWS: [(&str, &[Step<'static>]); 17] = [
    (
        "a_folder_that_is_opened_again_has_what_was_written, and the_files_are_those_that_the_documents_name",
        &[
            Clear("folder_again"),
            Mount(2, "folder_again"),
            Calls(&[
                (Log(Write(0, &[1, 2, 3, 4])), Done),
                (Log(Write(6, &[9])), Done),
                (Log(Write(1, &[8])), Done),
                (Log(Forget(2)), Done),
                (Log(Forget(1)), Done),
                (Log(LogCall::Sync), Done),
                (Of(Xact(0), Fill(5, 1)), Done),
                (Of(Xact(0), Fill(u32::MAX, 1)), Done),
                (Of(Xact(0), Fill(40, 9)), Done),
                (Of(Xact(0), PageCall::Sync), Done),
                (Of(Xact(0), Remove(40)), Done),
                (Of(Xact(0), Remove(41)), Done),
                (Of(Xact(0), PageCall::Sync), Done),
                (Of(Xact(1), Fill(5, 2)), Done),
                (Of(Xact(1), Fill(u32::MAX, 2)), Done),
                (Of(Xact(1), Fill(40, 9)), Done),
                (Of(Xact(1), PageCall::Sync), Done),
                (Of(Xact(1), Remove(40)), Done),
                (Of(Xact(1), Remove(41)), Done),
                (Of(Xact(1), PageCall::Sync), Done),
                (Of(Subtrans(1), Fill(3, 6)), Done),
                (Of(Offsets(1), Fill(3, 7)), Done),
                (Of(Members(1), Fill(3, 8)), Done),
            ]),
            Mount(2, "folder_again"),
            Calls(&[
                (Counts, Counted([2, 2, 2, 2])),
                (Log(Extent), Spans(2, 7)),
                (Log(Read(0)), Bytes(7, [1, 8, 3, 4, 0, 0, 9, 0])),
                (Log(Read(5)), Bytes(2, [0, 9, 0, 0, 0, 0, 0, 0])),
                (Log(Read(7)), Bytes(0, [0, 0, 0, 0, 0, 0, 0, 0])),
                (Log(Read(8)), Bytes(0, [0, 0, 0, 0, 0, 0, 0, 0])),
                (
                    Log(Read(1_099_511_627_776)),
                    Bytes(0, [0, 0, 0, 0, 0, 0, 0, 0]),
                ),
                (Log(Read(u64::MAX)), Bytes(0, [0, 0, 0, 0, 0, 0, 0, 0])),
                (Of(Xact(0), Look(5)), Page([1, 1, 1, 1], 1)),
                (Of(Xact(0), Look(40)), NoPage),
                (Of(Xact(0), First), Next(Some(5))),
                (Of(Xact(0), After(5)), Next(Some(u32::MAX))),
                (Of(Xact(0), After(u32::MAX)), Next(None)),
                (Of(Xact(1), Look(5)), Page([2, 2, 2, 2], 2)),
                (Of(Xact(1), Look(40)), NoPage),
                (Of(Xact(1), First), Next(Some(5))),
                (Of(Xact(1), After(5)), Next(Some(u32::MAX))),
                (Of(Xact(1), After(u32::MAX)), Next(None)),
                (Of(Subtrans(0), First), Next(None)),
                (Of(Subtrans(1), First), Next(Some(3))),
            ]),
            Holds("folder_again/log", &[1, 8, 3, 4, 0, 0, 9]),
            Holds("folder_again/start", &[2, 0, 0, 0, 0, 0, 0, 0]),
            Holds("folder_again/banks", &[2, 0, 0, 0, 0, 0, 0, 0]),
            PageOf("folder_again/xact.1.5", 2),
            PageOf("folder_again/subtrans.1.3", 6),
            PageOf("folder_again/offsets.1.3", 7),
            PageOf("folder_again/members.1.3", 8),
            Exists("folder_again/xact.1.40", false),
            Clear("folder_again"),
        ],
    ),
    (
        "a_media_gives_its_volumes_back_whatever_number_is_asked_for, and what wasn't synced is there after each kind of crash",
        &[
            Clear("folder_rest"),
            Mount(3, "folder_rest"),
            Calls(&[
                (Log(Write(0, &[5])), Done),
                (Rest(7), Done),
                (Counts, Counted([3, 3, 3, 3])),
                (Log(Write(1, &[6])), Done),
                (Call::Crash(Lost, 1), Done),
                (Log(Read(0)), Bytes(2, [5, 6, 0, 0, 0, 0, 0, 0])),
                (Counts, Counted([3, 3, 3, 3])),
                (Call::Crash(Kept, 1), Done),
                (Log(Read(0)), Bytes(2, [5, 6, 0, 0, 0, 0, 0, 0])),
                (Counts, Counted([3, 3, 3, 3])),
                (Call::Crash(Torn, 1), Done),
                (Log(Read(0)), Bytes(2, [5, 6, 0, 0, 0, 0, 0, 0])),
                (Counts, Counted([3, 3, 3, 3])),
                (Rest(1), Done),
            ]),
            Clear("folder_rest"),
        ],
    ),
    (
        "files_that_take_no_change_are_refused: where no folder can be made",
        &[
            Refused(1, "/proc/folder_still"),
            Exists("/proc/folder_still", false),
        ],
    ),
    (
        "files_that_take_no_change_are_refused: where the log can be read and not written, as the program that runs",
        &[
            Clear("folder_still"),
            Mount(1, "folder_still"),
            Leave,
            Unlink("folder_still/log"),
            Link("folder_still/log", "/proc/self/exe"),
            Refused(1, "folder_still"),
            Exists("folder_still", true),
            Clear("folder_still"),
        ],
    ),
    (
        "a_path_that_is_no_folder_is_refused",
        &[
            Put("folder_file", &[1]),
            Refused(1, "folder_file"),
            Refused(1, "folder_nowhere/folder"),
            Refused(1, ""),
            Unlink("folder_file"),
        ],
    ),
    (
        "a_log_whose_folder_is_gone_fails_and_goes_on; after a sync that failed no later one can tell what is on disk",
        &[
            Clear("folder_gone"),
            Mount(1, "folder_gone"),
            Calls(&[(Log(Write(0, &[1, 2, 3])), Done), (Log(Forget(1)), Done)]),
            Clear("folder_gone"),
            Calls(&[
                (Log(LogCall::Sync), Fails),
                (Log(Forget(2)), Fails),
                (Log(Write(u64::MAX, &[1])), Fails),
                (Log(Extent), Spans(1, 3)),
                (Log(Read(1)), Bytes(2, [2, 3, 0, 0, 0, 0, 0, 0])),
            ]),
            Make("folder_gone"),
            Calls(&[
                (Log(Forget(2)), Done),
                (Log(LogCall::Sync), Fails),
                (Log(Extent), Spans(2, 3)),
            ]),
            Clear("folder_gone"),
        ],
    ),
    (
        "pages_whose_files_are_gone_fail_and_go_on: a page that was written has to be there at the sync, and no later sync can tell",
        &[
            Clear("folder_lost"),
            Mount(1, "folder_lost"),
            Calls(&[(Of(Offsets(0), Fill(2, 5)), Done)]),
            Unlink("folder_lost/offsets.0.2"),
            Calls(&[
                (Of(Offsets(0), PageCall::Sync), Fails),
                (Of(Offsets(0), Fill(2, 6)), Done),
                (Of(Offsets(0), PageCall::Sync), Fails),
                (Of(Offsets(0), Look(2)), Page([6, 6, 6, 6], 6)),
            ]),
            Clear("folder_lost"),
        ],
    ),
    (
        "pages_whose_files_are_gone_fail_and_go_on: a folder in a page's place, and then no folder at all",
        &[
            Clear("folder_place"),
            Mount(1, "folder_place"),
            Make("folder_place/offsets.0.3"),
            Calls(&[
                (Of(Offsets(0), Look(3)), Fails),
                (Of(Offsets(0), Fill(3, 1)), Fails),
                (Of(Offsets(0), Remove(3)), Fails),
            ]),
            Clear("folder_place"),
            Calls(&[
                (Of(Offsets(0), First), Fails),
                (Of(Offsets(0), Fill(4, 1)), Fails),
            ]),
        ],
    ),
    (
        "a_folder_with_a_file_missing_is_refused: its log",
        &[
            Clear("folder_missing"),
            Mount(2, "folder_missing"),
            Calls(&[
                (Log(Write(0, &[1, 2, 3])), Done),
                (Log(LogCall::Sync), Done),
            ]),
            Leave,
            Unlink("folder_missing/log"),
            Refused(2, "folder_missing"),
            Clear("folder_missing"),
        ],
    ),
    (
        "a_folder_with_a_file_missing_is_refused: the log's start",
        &[
            Clear("folder_missing"),
            Mount(2, "folder_missing"),
            Calls(&[
                (Log(Write(0, &[1, 2, 3])), Done),
                (Log(LogCall::Sync), Done),
            ]),
            Leave,
            Unlink("folder_missing/start"),
            Refused(2, "folder_missing"),
            Clear("folder_missing"),
        ],
    ),
    (
        "a_folder_with_a_file_missing_is_refused: the number of banks",
        &[
            Clear("folder_missing"),
            Mount(2, "folder_missing"),
            Calls(&[
                (Log(Write(0, &[1, 2, 3])), Done),
                (Log(LogCall::Sync), Done),
            ]),
            Leave,
            Unlink("folder_missing/banks"),
            Refused(2, "folder_missing"),
            Clear("folder_missing"),
        ],
    ),
    (
        "a_folder_with_a_file_of_another_length_is_refused: the log's start, of seven bytes, of nine, and past the log's end",
        &[
            Clear("folder_short"),
            Mount(2, "folder_short"),
            Calls(&[
                (Log(Write(0, &[1, 2, 3])), Done),
                (Log(LogCall::Sync), Done),
            ]),
            Leave,
            Put("folder_short/start", &[0, 0, 0, 0, 0, 0, 0]),
            Refused(2, "folder_short"),
            Put("folder_short/start", &[0; 9]),
            Refused(2, "folder_short"),
            Put("folder_short/start", &[4, 0, 0, 0, 0, 0, 0, 0]),
            Refused(2, "folder_short"),
            Put("folder_short/start", &[0, 0, 0, 0, 0, 0, 0, 0]),
            Mount(2, "folder_short"),
            Clear("folder_short"),
        ],
    ),
    (
        "a_folder_with_a_file_of_another_length_is_refused: the number of banks, of no byte and of one",
        &[
            Clear("folder_short"),
            Mount(2, "folder_short"),
            Calls(&[
                (Log(Write(0, &[1, 2, 3])), Done),
                (Log(LogCall::Sync), Done),
            ]),
            Leave,
            Put("folder_short/banks", &[]),
            Refused(2, "folder_short"),
            Put("folder_short/banks", &[2]),
            Refused(2, "folder_short"),
            Put("folder_short/banks", &[2, 0, 0, 0, 0, 0, 0, 0]),
            Mount(2, "folder_short"),
            Clear("folder_short"),
        ],
    ),
    (
        "a_folder_has_its_own_number_of_banks_whatever_is_asked_for, and not 0 or 17",
        &[
            Clear("folder_banks"),
            Mount(2, "folder_banks"),
            Calls(&[
                (Log(Write(0, &[1, 2, 3])), Done),
                (Log(LogCall::Sync), Done),
            ]),
            Mount(1, "folder_banks"),
            Calls(&[(Counts, Counted([2, 2, 2, 2])), (Log(Extent), Spans(0, 3))]),
            Mount(3, "folder_banks"),
            Calls(&[(Counts, Counted([2, 2, 2, 2])), (Log(Extent), Spans(0, 3))]),
            Mount(16, "folder_banks"),
            Calls(&[(Counts, Counted([2, 2, 2, 2])), (Log(Extent), Spans(0, 3))]),
            Put("folder_banks/banks", &[0, 0, 0, 0, 0, 0, 0, 0]),
            Refused(2, "folder_banks"),
            Put("folder_banks/banks", &[17, 0, 0, 0, 0, 0, 0, 0]),
            Refused(2, "folder_banks"),
            Clear("folder_banks"),
        ],
    ),
    (
        "a_folder_that_holds_other_files_is_not_made_one_of_ours",
        &[
            Clear("folder_other"),
            Make("folder_other"),
            Put("folder_other/letter", &[1]),
            Refused(2, "folder_other"),
            Unlink("folder_other/letter"),
            Mount(2, "folder_other"),
            Calls(&[(Log(Extent), Spans(0, 0))]),
            Clear("folder_other"),
        ],
    ),
    (
        "a_making_that_was_cut_short_begins_anew",
        &[
            Clear("folder_begun"),
            Make("folder_begun"),
            Put("folder_begun/log", &[]),
            Put("folder_begun/start.new", &[0, 0, 0]),
            Mount(2, "folder_begun"),
            Calls(&[(Log(Extent), Spans(0, 0))]),
            Clear("folder_begun"),
        ],
    ),
    (
        "a_page_that_a_crash_cut_short_ends_with_zeros",
        &[
            Clear("folder_cut"),
            Mount(2, "folder_cut"),
            Calls(&[
                (Of(Members(0), Fill(3, 4)), Done),
                (Of(Members(1), Fill(3, 4)), Done),
            ]),
            Put("folder_cut/members.0.3", &[4; 100]),
            Put("folder_cut/members.1.3", &[]),
            Calls(&[
                (Of(Members(0), Look(3)), Page([4, 4, 4, 4], 0)),
                (Of(Members(1), Look(3)), Page([0, 0, 0, 0], 0)),
            ]),
            Clear("folder_cut"),
        ],
    ),
];

#[test]
fn folders_answer_as_each_row_says(rt: HostRuntime) {
    for (row, steps) in &ROWS {
        let mut folder = Folder::new(rt);
        for (place, step) in steps.iter().enumerate() {
            let is_so = folder.step(&rt, row, *step);
            assert!(rt; is_so, "{row}: step {place}");
        }
    }
}

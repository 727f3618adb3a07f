//! Logs that a run finds on its media: those of an earlier life, damaged ones, and new ones.
use crate::folder_help::{clear, run_behind};

/// Four batches of a record each: the checkpoint of a new log, the commit of 3, the multixact 1 of 3 and 4 at member offset
/// 1, and a checkpoint of what these come to. The last byte is the closed gate behind them.
const LOG: [u8; 187] = [
    1, 57, 0, 0, 0, 4, 0, 0, 0, 0, 0, 0, 0, 0, 3, 0, 0, 0, 0, 0, 0, 0, 3, 0, 0, 0, 0, 0, 0, 0, 1,
    0, 0, 0, 0, 0, 0, 0, 1, 0, 0, 0, 0, 0, 0, 0, 1, 0, 0, 0, 0, 0, 0, 0, 1, 0, 0, 0, 0, 0, 0, 0, 1,
    13, 0, 0, 0, 1, 3, 0, 0, 0, 0, 0, 0, 0, 0, 0, 0, 0, 1, 39, 0, 0, 0, 3, 1, 0, 0, 0, 0, 0, 0, 0,
    1, 0, 0, 0, 0, 0, 0, 0, 2, 0, 0, 0, 0, 3, 0, 0, 0, 0, 0, 0, 0, 1, 4, 0, 0, 0, 0, 0, 0, 0, 1,
    57, 0, 0, 0, 4, 3, 0, 0, 0, 0, 0, 0, 0, 5, 0, 0, 0, 0, 0, 0, 0, 3, 0, 0, 0, 0, 0, 0, 0, 2, 0,
    0, 0, 0, 0, 0, 0, 3, 0, 0, 0, 0, 0, 0, 0, 1, 0, 0, 0, 0, 0, 0, 0, 1, 0, 0, 0, 0, 0, 0, 0, 0,
];

/// Where the gates stand, what a run writes where the batch behind one is cut, and what it writes first behind so many of the
/// records.
const BEHIND: [(usize, &str, &str); 5] = [
    (
        0,
        "damaged 0\n",
        "txid report 1
life 1 from 0 next 3 oldest 3 multi 1 offset 1 oldest-multi 1 oldest-offset 1
",
    ),
    (
        62,
        "damaged 62\n",
        "txid report 1
life 1 from 1 next 3 oldest 3 multi 1 offset 1 oldest-multi 1 oldest-offset 1
",
    ),
    (
        80,
        "damaged 80\n",
        "txid report 1
life 1 from 2 next 4 oldest 3 multi 1 offset 1 oldest-multi 1 oldest-offset 1
",
    ),
    (
        124,
        "damaged 124\n",
        "txid report 1
life 1 from 3 next 5 oldest 3 multi 2 offset 3 oldest-multi 1 oldest-offset 1
",
    ),
    (
        186,
        "damaged 186\n",
        "txid report 1
life 1 from 4 next 5 oldest 3 multi 2 offset 3 oldest-multi 1 oldest-offset 1
",
    ),
];

/// The status of a run over the first so many bytes of the log, and what it writes first. At most one byte is a new log; else
/// the batches count up to the first closed gate, and the end of the volume is one. One that is cut is damage at its gate.
fn wanted(length: usize) -> (u8, &'static str) {
    for i in 0..5 {
        let place = 4 - i;
        let (gate, damaged, behind) = BEHIND[place];
        if length == gate || length == gate + 1 && (place == 0 || place == 4) {
            return (0, behind);
        }
        if gate < length {
            return (7, damaged);
        }
    }
    (7, "damaged 0\n")
}

#[test]
fn a_log_that_is_cut_anywhere_is_gone_on_from_or_damaged_at_the_cut_batch(rt: HostRuntime) {
    for length in 0..188 {
        let run = run_behind(&rt, rt, "cut_log", &LOG[..length], "a begin\n");
        let (status, front) = wanted(length);
        let is_well = run.status == status && run.written.starts_with(front);
        assert!(rt; is_well, "{length}: {} {}", run.status, run.written);
    }
    clear(&rt, &rt, "cut_log");
}

/// What a run over a new log writes.
const NEW: &str = "txid report 1
life 1 from 0 next 3 oldest 3 multi 1 offset 1 oldest-multi 1 oldest-offset 1
round 1
a 1 begin -> ok
history
multis
log flushed 1 end 62
0 checkpoint next 3 oldest 3 multi 1 offset 1 oldest-multi 1 oldest-offset 1
end
";

/// Logs, with the status of a run and what it writes.
const LOGS: [(&[u8], u8, &str); 6] = [
    // the_place_of_the_damage_is_told: a batch of one record with a wrong tag is damaged, at whatever place it stands.
    (&[1, 1, 0, 0, 0, 9, 0], 7, "damaged 0\n"),
    // a_log_without_a_batch_is_new: behind a closed gate at the beginning there is none, whatever stands there.
    (&[], 0, NEW),
    (&[0], 0, NEW),
    (&[1], 0, NEW),
    (&[0, 7, 7, 7], 0, NEW),
    (&[2, 7], 0, NEW),
];

#[test]
fn logs_that_a_run_finds(rt: HostRuntime) {
    for (log, status, text) in &LOGS {
        let run = run_behind(&rt, rt, "found_log", log, "a begin\n");
        let is_well = run.status == *status && run.written.as_str() == *text;
        assert!(rt; is_well, "{log:?}: {} {}", run.status, run.written);
    }
    clear(&rt, &rt, "found_log");
}

/// What a life writes behind the first two records.
const BEHIND_A_COMMIT: &str = "txid report 1
life 1 from 2 next 4 oldest 3 multi 1 offset 1 oldest-multi 1 oldest-offset 1
round 1
a 1 snap s -> ok xmin 4 xmax 4 xip - sub - overflow no
a 2 see s 3 -> visible
history
snap a 1 s
multis
log flushed 3 end 142
2 checkpoint next 4 oldest 3 multi 1 offset 1 oldest-multi 1 oldest-offset 1
end
";

#[test]
fn a_commit_of_an_earlier_life_is_visible(rt: HostRuntime) {
    let mut log = LOG;
    log[80] = 0;
    let script = "a snap s\na see s 3\n";
    let run = run_behind(&rt, rt, "commit_log", &log[..81], script);
    let is_well = run.status == 0 && run.written.as_str() == BEHIND_A_COMMIT;
    assert!(rt; is_well, "{}", run.written);
    clear(&rt, &rt, "commit_log");
}

/// What a life writes behind all four. Of the multixact's members 3 has committed and 4 hasn't.
const BEHIND_A_MULTIXACT: &str = "txid report 1
life 1 from 4 next 5 oldest 3 multi 2 offset 3 oldest-multi 1 oldest-offset 1
round 1
a 1 snap s -> ok xmin 5 xmax 5 xip - sub - overflow no
a 2 seemulti s 1 -> ok 3:keysh:visible 4:sh:hidden
history
snap a 1 s
multis
hold a 2 1
unhold a 2 1
log flushed 5 end 248
4 checkpoint next 5 oldest 3 multi 2 offset 3 oldest-multi 1 oldest-offset 1
end
";

#[test]
fn a_multixact_of_an_earlier_life_has_its_members(rt: HostRuntime) {
    let script = "a snap s\na seemulti s 1\n";
    let run = run_behind(&rt, rt, "multi_log", &LOG, script);
    let is_well = run.status == 0 && run.written.as_str() == BEHIND_A_MULTIXACT;
    assert!(rt; is_well, "{}", run.written);
    clear(&rt, &rt, "multi_log");
}

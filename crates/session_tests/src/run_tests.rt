//! The first worked runs, and how a run ends otherwise.
use crate::gates::TestGate;
use crate::runs::{run_past, source_of};
use crate::test_help::check_rows;
use script_rounds::RoundThreads;
use std::alloc::AllocGlobal;
use std::process::Abort;
use std::sync::Wait;
use std::thread::Threads;
use tx_io::{Failed, Source};

const ROWS: &str = "=== empty_script
--- report
txid report 1
life 1 from 0 next 3 oldest 3 multi 1 offset 1 oldest-multi 1 oldest-offset 1
history
multis
log flushed 1 end 62
0 checkpoint next 3 oldest 3 multi 1 offset 1 oldest-multi 1 oldest-offset 1
end
=== commit_is_visible
a begin
a write
a commit
a snap s
a see s 3
--- report
txid report 1
life 1 from 0 next 3 oldest 3 multi 1 offset 1 oldest-multi 1 oldest-offset 1
round 1
a 1 begin -> ok
a 2 write -> ok 3
a 3 commit -> ok
a 4 snap s -> ok xmin 4 xmax 4 xip - sub - overflow no
a 5 see s 3 -> visible
history
id a 2 3
commit a 3 3
snap a 4 s
multis
log flushed 2 end 80
0 checkpoint next 3 oldest 3 multi 1 offset 1 oldest-multi 1 oldest-offset 1
1 commit 3
end
=== commit_after_snapshot_is_hidden
a begin
a write
a snap s
a commit
a see s 3
--- report
txid report 1
life 1 from 0 next 3 oldest 3 multi 1 offset 1 oldest-multi 1 oldest-offset 1
round 1
a 1 begin -> ok
a 2 write -> ok 3
a 3 snap s -> ok xmin 3 xmax 3 xip - sub - overflow no
a 4 commit -> ok
a 5 see s 3 -> hidden
history
id a 2 3
snap a 3 s
commit a 4 3
multis
log flushed 2 end 80
0 checkpoint next 3 oldest 3 multi 1 offset 1 oldest-multi 1 oldest-offset 1
1 commit 3
end
=== special_ids
a snap s
a see s 0
a see s 1
a see s 2
--- report
txid report 1
life 1 from 0 next 3 oldest 3 multi 1 offset 1 oldest-multi 1 oldest-offset 1
round 1
a 1 snap s -> ok xmin 3 xmax 3 xip - sub - overflow no
a 2 see s 0 -> hidden
a 3 see s 1 -> visible
a 4 see s 2 -> visible
history
snap a 1 s
multis
log flushed 1 end 62
0 checkpoint next 3 oldest 3 multi 1 offset 1 oldest-multi 1 oldest-offset 1
end
=== abort_records_wait_for_a_flush
# An aborted transaction's record waits for the next flush: three aborts of 13 bytes and a commit in one batch.
a begin
a write
a abort
b begin
b write
b commit
c begin
c write
c abort
--- report
txid report 1
life 1 from 0 next 3 oldest 3 multi 1 offset 1 oldest-multi 1 oldest-offset 1
round 1
a 1 begin -> ok
a 2 write -> ok 3
a 3 abort -> ok
b 1 begin -> ok
b 2 write -> ok 4
b 3 commit -> ok
c 1 begin -> ok
c 2 write -> ok 5
c 3 abort -> ok
history
id a 2 3
abort a 3 3
id b 2 4
commit b 3 4
id c 2 5
abort c 3 5
multis
log flushed 3 end 93
0 checkpoint next 3 oldest 3 multi 1 offset 1 oldest-multi 1 oldest-offset 1
1 abort 3
2 commit 4
3 abort 5
end
";

#[test]
fn first_runs(rt: HostRuntime) {
    check_rows(&rt, ROWS);
}

/// A run that ends otherwise: its script, the reads of its source that fail, how much room its sink has, the status, and the
/// text of which the sink holds as much as it has room for.
#[derive(Drop)]
struct Ending {
    name: &'static str,
    script: &'static str,
    failing: &'static [u64],
    room: u64,
    status: u8,
    text: &'static str,
}

const ENDINGS: [Ending; 4] = [
    Ending {
        name: "bytes_that_are_no_script_are_refused",
        script: "a begin\na frob\n",
        failing: &[],
        room: 100,
        status: 1,
        text: "script 2 command\n",
    },
    Ending {
        name: "a_failing_read_is_a_read_fault",
        script: "a begin\n",
        failing: &[1],
        room: 100,
        status: 3,
        text: "read-fault\n",
    },
    Ending {
        name: "a_sink_of_twenty_holds_the_front_of_the_report",
        script: "",
        failing: &[],
        room: 20,
        status: 4,
        text: "txid report 1\nlife 1 from 0 next 3\n",
    },
    // The life that crashed is written before the next one is opened: a sink that is full then holds no more.
    Ending {
        name: "a_life_is_written_before_its_crash",
        script: ".crash lost\n.crash kept\n",
        failing: &[],
        room: 14,
        status: 4,
        text: "txid report 1\nlife 1 from 0 next 3\n",
    },
];

/// A run of the script ends as the row says.
fn check_ending(rt: &(impl Abort + AllocGlobal + Threads + Wait + Sync), row: &Ending) {
    let mut source = source_of(rt, row.script, row.failing);
    let threads = RoundThreads::AtMost(4);
    let run = run_past(
        rt,
        &["run"],
        &mut source,
        row.room,
        threads,
        &TestGate::Open,
    );
    let length = (row.text.len() as u64).min(row.room);
    let is_well = run.status == row.status
        && row.text.starts_with(run.written.as_str())
        && run.written.len() as u64 == length;
    assert!(rt; is_well, "{}: {} {}", row.name, run.status, run.written);
}

#[test]
fn runs_that_end_otherwise(rt: HostRuntime) {
    for row in &ENDINGS {
        check_ending(&rt, row);
    }
}

/// A source that never ends.
#[derive(Drop)]
struct Endless;

impl Source for Endless {
    ghost use Rattle.std.specs.Prelude.{None};
    ghost use Rattle.std.specs.Io.{ReadsAtMost};
    ghost use Rattle.std.specs.Io.KnownBytes.{ReadConsumes};
    ghost use Rattle.tx_io.specs.Causes.{HasCause};

    ghost left = { λ _. None };

    ghost faults = { λ _. 0 };

    fn read(&mut self, into: &mut [u8]) -> Result<usize, Failed>
        ensures bound { ReadsAtMost result into.new }
        ensures bytes { ReadConsumes None None result into.new }
        ensures cause { HasCause 0 0 result }
    {
        Ok(into.len())
    }
}

/// A run stops one byte past the limit of a script.
#[test]
fn script_past_the_limit_is_refused(rt: HostRuntime) {
    let threads = RoundThreads::AtMost(4);
    let run = run_past(&rt, &["run"], &mut Endless, 100, threads, &TestGate::Open);
    assert!(rt; run.status == 1 && run.written.as_str() == "script 0 size\n");
}

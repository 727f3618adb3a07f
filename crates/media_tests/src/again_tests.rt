//! A media that is handed to a second run, which goes on behind the records of the first.
use crate::folder_help::clear;
use crate::runs::run_in;

const FIRST: &str = ".banks 3
a begin
a write
b begin
b save
b write
b multi 4:keysh 5:upd
b commit
.crash lost
a begin
a write
a commit
";

const SECOND: &str = ".banks BANKS
a snap s
a see s 3
a see s 4
a see s 5
a see s 6
a seemulti s 1
a begin
a write
";

// Behind the checkpoints of two lives, the multixact and the two commits. The first run's first life left 3 open.
const NEXT: &str = "txid report 1
life 1 from 5 next 7 oldest 3 multi 2 offset 3 oldest-multi 1 oldest-offset 1
round 1
a 1 snap s -> ok xmin 7 xmax 7 xip - sub - overflow no
a 2 see s 3 -> hidden
a 3 see s 4 -> visible
a 4 see s 5 -> visible
a 5 see s 6 -> visible
a 6 seemulti s 1 -> ok 4:keysh:visible 5:upd:visible
a 7 begin -> ok
a 8 write -> ok 7
history
snap a 1 s
id a 8 7
multis
hold a 6 1
unhold a 6 1
log flushed 6 end 269
5 checkpoint next 7 oldest 3 multi 2 offset 3 oldest-multi 1 oldest-offset 1
end
";

#[test]
fn a_second_run_goes_on_behind_the_first_in_its_banks(rt: HostRuntime) {
    for banks in ["1", "3", "16"] {
        clear(&rt, &rt, "again");
        let first = run_in(&rt, rt, "again", FIRST);
        assert!(rt; first.status == 0);
        let script = SECOND
            .replace(rt.alloc(), "BANKS", banks)
            .expect(&rt, "memory");
        let run = run_in(&rt, rt, "again", script.as_str());
        let is_well = run.status == 0 && run.written.as_str() == NEXT;
        assert!(rt; is_well, "{banks}: {}", run.written);
    }
    clear(&rt, &rt, "again");
}

// Scripts with their faults, from the rows of the format, and generated ones, with the counts that another program of the same
// format printed.
use crate::generated::{
    a_round_ends_behind_64_transactions_and_sessions_take_turns,
    first_script_of_the_format_is_drawn_as_it_says, no_transactions_make_no_script_lines,
    scripts_have_the_counts_that_were_printed_elsewhere,
};
use crate::help::{check_row, joined};
use crate::scripts::Line::{Crash, Dump, Multi, Of};
use crate::scripts::Word::{Did, Drop, See, SeeMulti, Snap, Status};
use crate::scripts::check_script;
use session_lang::{Kind, ParseRefusal, Script, line_of, parse};
use std::alloc::AllocGlobal;
use std::process::Abort;
use tx_events::Xid;
use tx_model::{DumpOf, How, Mode, Pair};

fn read(rt: &(impl Abort + AllocGlobal), text: &str) -> Script {
    let Ok(script) = parse(rt.alloc(), text.as_bytes()) else {
        panic!(rt; "not read: {text}");
    };
    script
}

/// Whether the first fault of the text is of this line and of this kind.
fn has_fault(rt: &impl AllocGlobal, text: &str, line: u64, kind: Kind) -> bool {
    match parse(rt.alloc(), text.as_bytes()) {
        Err(refusal) => refusal == ParseRefusal::Fault { line, kind },
        Ok(_) => false,
    }
}

fn check_fault(rt: &(impl Abort + AllocGlobal), text: &str, line: u64, kind: Kind) {
    check_row(rt, has_fault(rt, text, line, kind), text);
}

const FAULTS: [(&str, u64, Kind); 24] = [
    (".round\n.start 3\n", 2, Kind::Directive),
    ("a see s 4294967296\n", 1, Kind::Number),
    ("a multi 3:foo\n", 1, Kind::Mode),
    ("a multi x:sh 3:sh:\n", 1, Kind::Mode),
    ("a multi x:sh\n", 1, Kind::Number),
    ("a begin x\n", 1, Kind::Arguments),
    (".oldest 9\n.start 8\n", 2, Kind::Base),
    (".oldest 9\n\n# x\n.start 9\n.start 9\n", 5, Kind::Directive),
    (".oldest 9\na frob\n", 1, Kind::Base),
    (".oldest 9\n# \x01\n.start 9\n", 1, Kind::Base),
    (".oldest 9\n.start \x01\n", 2, Kind::Byte),
    (".crash soon\n", 1, Kind::Name),
    (".crash\n", 1, Kind::Arguments),
    ("a begin\na frob\n", 2, Kind::Command),
    ("a\n", 1, Kind::Command),
    ("A begin\n", 1, Kind::Session),
    ("a begin\r", 1, Kind::Byte),
    ("a begin\r\r\n", 1, Kind::Byte),
    ("# \x7f\n", 1, Kind::Byte),
    (".dump foo 0 1\n", 1, Kind::Arguments),
    (".dump foo 0 0 1\n", 1, Kind::Name),
    (".dump xact 0 8192 1\n", 1, Kind::Number),
    ("a freeze 4294967296\n", 1, Kind::Number),
    (".banks 17\n", 1, Kind::Number),
];

fn first_fault_is_told_with_its_line_and_kind(rt: &(impl Abort + AllocGlobal)) {
    for (text, line, kind) in &FAULTS {
        check_fault(rt, text, *line, *kind);
    }
}

const UPD_AND_SH: [Pair; 2] = [
    Pair {
        x: Xid { number: 3 },
        mode: Mode::Upd,
    },
    Pair {
        x: Xid { number: 4 },
        mode: Mode::Sh,
    },
];

const SH_AND_UPD: [Pair; 2] = [
    Pair {
        x: Xid { number: 3 },
        mode: Mode::Sh,
    },
    Pair {
        x: Xid { number: 4 },
        mode: Mode::Upd,
    },
];

const KEY_SH: [Pair; 1] = [Pair {
    x: Xid { number: 5 },
    mode: Mode::KeySh,
}];

/// The item at this place stands on this line, or on none, which is 0.
fn check_line_of(rt: &impl Abort, text: &str, place: usize, line: u64) {
    assert!(rt; text.len() <= 16_777_216);
    check_row(rt, line_of(text.as_bytes(), place) == line, text);
}

fn blanks_comments_and_line_ends_are_no_part_of_a_script(rt: &(impl Abort + AllocGlobal)) {
    let text = "  # a script\r\n\t.banks\t016\r\n\n b  multi 003:upd\t4:sh \n.crash torn\nb did 1";
    check_script(
        rt,
        text,
        &read(rt, text),
        16,
        &[b"b"],
        &[Multi(0, &UPD_AND_SH), Crash(How::Torn), Of(0, Did, b"", 1)],
    );
    check_line_of(rt, text, 0, 4);
    check_line_of(rt, text, 1, 5);
    check_line_of(rt, text, 3, 0);
}

fn check_session_at(rt: &impl Abort, script: &Script, place: usize, session: Option<u32>) {
    assert!(rt;
        script.items.items().session_at(place) == session,
        "session at {place}"
    );
}

fn each_command_has_its_own_name_and_number(rt: &(impl Abort + AllocGlobal)) {
    let script = read(
        rt,
        "a snap first\nb see s 7\na seemulti second1 9\nb status 4294967303\na drop first\n",
    );
    check_script(
        rt,
        "each_command_has_its_own_name_and_number",
        &script,
        4,
        &[b"a", b"b"],
        &[
            Of(0, Snap, b"first", 0),
            Of(1, See, b"s", 7),
            Of(0, SeeMulti, b"second1", 9),
            Of(1, Status, b"", 4_294_967_303),
            Of(0, Drop, b"first", 0),
        ],
    );
    check_session_at(rt, &script, 4, Some(0));
    check_session_at(rt, &script, 5, None);
}

fn each_multixact_and_dump_has_its_own_part(rt: &(impl Abort + AllocGlobal)) {
    let text =
        "a multi 3:sh 4:upd\n.dump log 1099511627776 64\na multi 5:keysh\n.dump xact 7 8 9\n";
    check_script(
        rt,
        text,
        &read(rt, text),
        4,
        &[b"a"],
        &[
            Multi(0, &SH_AND_UPD),
            Dump(DumpOf::Log, 1_099_511_627_776, 64),
            Multi(0, &KEY_SH),
            Dump(DumpOf::Xact { page: 7 }, 8, 9),
        ],
    );
}

const SHORT_LINES: [&str; 24] = [
    "a begin",
    "a save",
    "a write",
    "a release",
    "a undo",
    "a commit",
    "a abort",
    "a trim",
    "a horizon",
    "a snap s",
    "a drop s",
    "a see s 3",
    "a seemulti s 1",
    "a did 3",
    "a status 3",
    "a freeze 3",
    "a multifreeze 1",
    "a multi",
    "a multi 3:sh 4:sh 5:sh",
    ".round",
    ".checkpoint",
    ".crash lost",
    ".dump log 0 1",
    ".dump xact 0 0 1",
];

fn check_kept(rt: &(impl Abort + AllocGlobal), text: &str) {
    let kept = read(rt, text).items.bytes_kept();
    check_row(rt, kept <= text.len().saturating_mul(2), text);
}

fn shortest_line_of_each_kind_takes_at_most_twice_its_text(rt: &(impl Abort + AllocGlobal)) {
    for text in &SHORT_LINES {
        check_kept(rt, text);
    }
}

fn header_sets_all_counters(rt: &(impl Abort + AllocGlobal)) {
    let text = ".offset 9\n.start 4294967299\n.multi 77\n.oldest 4294967295\n";
    let base = read(rt, text).base;
    assert!(rt; base.next.number() == 4_294_967_299 && base.oldest.number() == 4_294_967_295);
    assert!(rt; base.multi.number() == 77 && base.oldest_multi.number() == 77);
    assert!(rt; base.offset == 9 && base.oldest_offset == 9);
}

const SIXTY_FOUR: &str = "s0 begin\ns1 begin\ns2 begin\ns3 begin\n\
    s4 begin\ns5 begin\ns6 begin\ns7 begin\n\
    s8 begin\ns9 begin\ns10 begin\ns11 begin\n\
    s12 begin\ns13 begin\ns14 begin\ns15 begin\n\
    s16 begin\ns17 begin\ns18 begin\ns19 begin\n\
    s20 begin\ns21 begin\ns22 begin\ns23 begin\n\
    s24 begin\ns25 begin\ns26 begin\ns27 begin\n\
    s28 begin\ns29 begin\ns30 begin\ns31 begin\n\
    s32 begin\ns33 begin\ns34 begin\ns35 begin\n\
    s36 begin\ns37 begin\ns38 begin\ns39 begin\n\
    s40 begin\ns41 begin\ns42 begin\ns43 begin\n\
    s44 begin\ns45 begin\ns46 begin\ns47 begin\n\
    s48 begin\ns49 begin\ns50 begin\ns51 begin\n\
    s52 begin\ns53 begin\ns54 begin\ns55 begin\n\
    s56 begin\ns57 begin\ns58 begin\ns59 begin\n\
    s60 begin\ns61 begin\ns62 begin\ns63 begin\n";

fn sixty_fifth_session_is_one_too_many(rt: &(impl Abort + AllocGlobal)) {
    let _script = read(rt, SIXTY_FOUR);
    let one_more = joined(rt, &[SIXTY_FOUR, "s64 begin\n"]);
    check_fault(rt, one_more.as_str(), 65, Kind::Limit);
}

fn command_past_a_hundred_thousand_in_a_round_is_one_too_many(rt: &(impl Abort + AllocGlobal)) {
    let writes = "a write\n".repeat(rt.alloc(), 100_000).expect(rt, "memory");
    let two_rounds = joined(rt, &[writes.as_str(), ".dump log 0 1\n", writes.as_str()]);
    let is_read = parse(rt.alloc(), two_rounds.as_str().as_bytes()).is_ok();
    check_row(rt, is_read, "100000 in each of two rounds");
    let one_more = joined(rt, &[two_rounds.as_str(), "a write\n"]);
    check_row(
        rt,
        has_fault(rt, one_more.as_str(), 200_002, Kind::Limit),
        "100001 in the second round",
    );
}

#[test]
fn scripts_answer_as_each_row_says(rt: HostRuntime) {
    first_fault_is_told_with_its_line_and_kind(&rt);
    blanks_comments_and_line_ends_are_no_part_of_a_script(&rt);
    each_command_has_its_own_name_and_number(&rt);
    each_multixact_and_dump_has_its_own_part(&rt);
    shortest_line_of_each_kind_takes_at_most_twice_its_text(&rt);
    header_sets_all_counters(&rt);
    sixty_fifth_session_is_one_too_many(&rt);
    command_past_a_hundred_thousand_in_a_round_is_one_too_many(&rt);
    scripts_have_the_counts_that_were_printed_elsewhere(&rt);
    first_script_of_the_format_is_drawn_as_it_says(&rt);
    no_transactions_make_no_script_lines(&rt);
    a_round_ends_behind_64_transactions_and_sessions_take_turns(&rt);
}

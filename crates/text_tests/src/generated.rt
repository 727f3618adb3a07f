//! What is generated, and what it comes to.
use crate::help::{check_row, id};
use crate::scripts::Line::Of;
use crate::scripts::Word::{Begin, Commit, Drop, Release, Save, See, Snap, Undo, Write};
use crate::scripts::check_script;
use script_gen::{Summary, generate};
use session_lang::{Item, Items, Script};
use std::alloc::AllocGlobal;
use std::process::Abort;
use tx_events::ByWords;
use tx_model::{By, Command, Event, Name};

fn script_of(rt: &(impl Abort + AllocGlobal), seed: u32, size: u32) -> Script {
    generate(rt.alloc(), seed, size).expect(rt, "memory")
}

/// What a script's commands come to, where none of them is refused.
fn counted(rt: &impl Abort, items: &Items) -> Summary {
    let mut all = Summary {
        commands: 0,
        ids: 0,
        undone: 0,
        commits: 0,
        aborts: 0,
        snaps: 0,
        sees: 0,
    };
    for place in 0..items.len() {
        let Some(Item::Run { command, .. }) = items.get(place).expect(rt, "memory") else {
            continue;
        };
        all.commands = all.commands.saturating_add(1);
        let count = match command {
            Command::Begin | Command::Save => &mut all.ids,
            Command::Undo => &mut all.undone,
            Command::Commit => &mut all.commits,
            Command::Abort => &mut all.aborts,
            Command::Snap { .. } => &mut all.snaps,
            Command::See { .. } => &mut all.sees,
            _ => continue,
        };
        *count = count.saturating_add(1);
    }
    all
}

pub fn scripts_have_the_counts_that_were_printed_elsewhere(rt: &(impl Abort + AllocGlobal)) {
    for (seed, size, line) in [
        (
            1,
            1,
            "commands 15 ids 4 undone 2 commits 1 aborts 0 snaps 1 sees 1\n",
        ),
        (
            7,
            64,
            "commands 2103 ids 637 undone 224 commits 53 aborts 11 snaps 64 sees 64\n",
        ),
        (
            123456789,
            300,
            "commands 9570 ids 2890 undone 861 commits 239 aborts 61 snaps 300 sees 300\n",
        ),
        (
            2147483646,
            1000,
            "commands 32439 ids 9813 undone 2934 commits 814 aborts 186 snaps 1000 sees 1000\n",
        ),
    ] {
        let script = script_of(rt, seed, size);
        let all = counted(rt, &script.items.items());
        let text = all.text(rt.alloc()).expect(rt, "memory");
        check_row(rt, text.as_slice() == line.as_bytes(), line);
    }
}

pub fn first_script_of_the_format_is_drawn_as_it_says(rt: &(impl Abort + AllocGlobal)) {
    check_script(
        rt,
        "first_script_of_the_format_is_drawn_as_it_says",
        &script_of(rt, 1, 1),
        4,
        &[b"a"],
        &[
            Of(0, Begin, b"", 0),
            Of(0, Write, b"", 0),
            Of(0, Save, b"", 0),
            Of(0, Write, b"", 0),
            Of(0, Undo, b"", 0),
            Of(0, Save, b"", 0),
            Of(0, Write, b"", 0),
            Of(0, Undo, b"", 0),
            Of(0, Save, b"", 0),
            Of(0, Write, b"", 0),
            Of(0, Release, b"", 0),
            Of(0, Snap, b"s", 0),
            Of(0, See, b"s", 3),
            Of(0, Drop, b"s", 0),
            Of(0, Commit, b"", 0),
        ],
    );
}

pub fn no_transactions_make_no_script_lines(rt: &(impl Abort + AllocGlobal)) {
    check_script(
        rt,
        "no_transactions_make_no_script_lines",
        &script_of(rt, 5, 0),
        4,
        &[],
        &[],
    );
}

/// Four sessions take turns, and a round ends behind 64 transactions: of 130 transactions there are two rounds.
pub fn a_round_ends_behind_64_transactions_and_sessions_take_turns(
    rt: &(impl Abort + AllocGlobal),
) {
    let script = script_of(rt, 7, 130);
    let items = script.items.items();
    let mut begun: u32 = 0;
    let mut rounds: u32 = 0;
    for place in 0..items.len() {
        match items.get(place).expect(rt, "memory") {
            Some(
                Item::Run {
                    session,
                    command: Command::Begin,
                },
            ) => {
                assert!(rt; session == begun % 4);
                begun = begun.saturating_add(1);
            }
            Some(Item::Round) => {
                rounds = rounds.saturating_add(1);
                assert!(rt; begun == rounds.saturating_mul(64));
            }
            _ => {}
        }
    }
    assert!(rt; begun == 130 && rounds == 2 && script.names.items().len() == 4);
}

#[test]
fn summary_counts_what_a_history_has_of_each(rt: HostRuntime) {
    let by = By {
        session: 0,
        command: 1,
    };
    let (three, four) = (id(&rt, 3), id(&rt, 4));
    let history = [
        Event::Id {
            by: ByWords::of(by),
            id: three,
        },
        Event::Sub {
            by: ByWords::of(by),
            parent: three,
            id: four,
        },
        Event::Undo {
            by: ByWords::of(by),
            id: four,
        },
        Event::Snap {
            by: ByWords::of(by),
            name: Name::of(b"s"),
        },
        Event::SnapDrop {
            by: ByWords::of(by),
            name: Name::of(b"s"),
        },
        Event::Commit {
            by: ByWords::of(by),
            top: three,
        },
        Event::Ask {
            by: ByWords::of(by),
            id: three,
        },
    ];
    let wanted = Summary {
        commands: 9,
        ids: 2,
        undone: 1,
        commits: 1,
        aborts: 0,
        snaps: 1,
        sees: 3,
    };
    assert!(rt; Summary::of(&history, 9, 3) == wanted);
}

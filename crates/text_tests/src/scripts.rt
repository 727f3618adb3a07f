//! What a script says, as values.
use session_lang::{Item, Script};
use std::alloc::AllocGlobal;
use std::process::Abort;
use tx_model::{Command, DumpOf, How, Pair};

/// Which command a line has.
#[derive(Clone, Copy, PartialEq, Eq)]
pub enum Word {
    Begin,
    Save,
    Write,
    Release,
    Undo,
    Commit,
    Snap,
    Drop,
    See,
    SeeMulti,
    Status,
    Did,
    Else,
}

/// A line of a script.
#[derive(Clone, Copy)]
pub enum Line {
    /// A session's command, with the name and the number behind it: no name and 0 where it has none.
    Of(u32, Word, &'static [u8], u64),
    /// A session's multixact of these members.
    Multi(u32, &'static [Pair]),
    Crash(How),
    Dump(DumpOf, u64, u32),
}

fn word_of(command: &Command) -> Word {
    match command {
        Command::Begin => Word::Begin,
        Command::Save => Word::Save,
        Command::Write => Word::Write,
        Command::Release => Word::Release,
        Command::Undo => Word::Undo,
        Command::Commit => Word::Commit,
        Command::Snap { .. } => Word::Snap,
        Command::DropSnap { .. } => Word::Drop,
        Command::See { .. } => Word::See,
        Command::SeeMulti { .. } => Word::SeeMulti,
        Command::Status { .. } => Word::Status,
        Command::Did { .. } => Word::Did,
        _ => Word::Else,
    }
}

fn name_of(command: &Command) -> &[u8] {
    match command {
        Command::Snap { name } => name.items(),
        Command::DropSnap { name } => name.items(),
        Command::See { name, .. } => name.items(),
        Command::SeeMulti { name, .. } => name.items(),
        _ => &[],
    }
}

fn number_of(command: &Command) -> u64 {
    match command {
        Command::See { x, .. } => u64::from(x.number),
        Command::SeeMulti { multi, .. } => u64::from(multi.number),
        Command::Status { x } => x.number(),
        Command::Did { x } => u64::from(x.number),
        _ => 0,
    }
}

fn is_of_session(session: u32, command: &Command, line: &Line) -> bool {
    match line {
        Line::Of(of, word, name, number) => {
            session == *of
                && word_of(command) == *word
                && name_of(command) == *name
                && number_of(command) == *number
        }
        Line::Multi(of, pairs) => match command {
            Command::Multi { members } => session == *of && members.items() == *pairs,
            _ => false,
        },
        _ => false,
    }
}

fn is_line(item: &Item, line: &Line) -> bool {
    match (item, line) {
        (Item::Run { session, command }, line) => is_of_session(*session, command, line),
        (Item::Crash { how }, Line::Crash(wanted)) => how == wanted,
        (Item::Dump { what, at, length }, Line::Dump(of, from, count)) => {
            what == of && at == from && length == count
        }
        _ => false,
    }
}

fn have_names(script: &Script, names: &[&[u8]]) -> bool {
    let found = script.names.items();
    if found.len() != names.len() {
        return false;
    }
    for (name, wanted) in found.iter().zip(names) {
        if name.items() != *wanted {
            return false;
        }
    }
    true
}

/// The script has so many banks, sessions of these names and these lines.
pub fn check_script(
    rt: &(impl Abort + AllocGlobal),
    row: &str,
    script: &Script,
    banks: u32,
    names: &[&[u8]],
    lines: &[Line],
) {
    assert!(rt; have_names(script, names), "{row}: names");
    let items = script.items.items();
    assert!(rt;
        script.banks == banks && items.len() == lines.len(),
        "{row}: banks or count"
    );
    for (place, line) in lines.iter().enumerate() {
        let item = items.get(place).expect(rt, "memory").expect(rt, "an item");
        assert!(rt; is_line(&item, line), "{row}: at {place}");
    }
}

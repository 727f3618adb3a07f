//! Lists long enough to be printed in pieces have the text that they have on one thread: a line for each element, in order.
use crate::help::{check_row, id, list, multi};
use crate::reports::two_sessions;
use std::alloc::AllocGlobal;
use std::process::Abort;
use std::thread::Threads;
use text_pieces::Pieces;
use tx_events::{By, ByWords, Event, MultiEvent, Rec};

/// A list's length: a shorter one is printed on one thread.
const LONG: u64 = 5_000;

/// A session's command.
fn by(number: u64) -> By {
    By {
        session: (number % 2) as u32,
        command: number,
    }
}

fn events(rt: &(impl Abort + AllocGlobal)) -> Vec<Event> {
    let mut events = Vec::new(rt.alloc());
    for number in 1..LONG + 1 {
        let event = Event::Id {
            by: ByWords::of(by(number)),
            id: id(rt, number + 2),
        };
        events.push(event).expect(rt, "memory");
    }
    events
}

fn multis(rt: &(impl Abort + AllocGlobal)) -> Vec<MultiEvent> {
    let mut multis = Vec::new(rt.alloc());
    for number in 1..LONG + 1 {
        let event = MultiEvent::Hold {
            by: ByWords::of(by(number)),
            multi: multi(rt, number),
        };
        multis.push(event).expect(rt, "memory");
    }
    multis
}

fn records(rt: &(impl Abort + AllocGlobal)) -> Vec<Rec> {
    let mut records = Vec::new(rt.alloc());
    for number in 1..LONG + 1 {
        let rec = Rec::Commit {
            top: id(rt, number + 2),
            subs: list(rt, [id(rt, number + 3)]),
        };
        records.push(rec).expect(rt, "memory");
    }
    records
}

/// The text of the lists on so many threads.
fn printed<R: Threads + Abort + AllocGlobal + Sync>(rt: &R, threads: usize) -> String {
    let names = two_sessions(rt);
    let mut pieces = Pieces::new(rt.alloc());
    pieces
        .put_history(rt, &names, events(rt), threads)
        .expect(rt, "memory");
    pieces
        .put_multis(rt, &names, multis(rt).as_slice(), threads)
        .expect(rt, "memory");
    pieces.put_log_line(8, 9).expect(rt, "memory");
    pieces
        .put_records(rt, 7, records(rt).as_slice(), threads)
        .expect(rt, "memory");
    pieces.put_word(b"end").expect(rt, "memory");
    let mut text = Vec::new(rt.alloc());
    let (front, last) = pieces.parts();
    // Each of the three lists has what stood before it as a piece, and one for each thread.
    let wanted = if threads < 2 {
        0
    } else {
        threads.saturating_add(1).saturating_mul(3)
    };
    check_row(rt, front.len() == wanted, "pieces of a text");
    for piece in front {
        text.extend_from_slice(piece.bytes()).expect(rt, "memory");
    }
    text.extend_from_slice(last.bytes()).expect(rt, "memory");
    String::from_utf8(text).ok().expect(rt, "a text")
}

fn push(rt: &(impl Abort + AllocGlobal), text: &mut String, line: &str) {
    text.push_str(line).expect(rt, "memory");
}

/// The text that they have.
fn wanted(rt: &(impl Abort + AllocGlobal)) -> String {
    let mut text = String::new(rt.alloc());
    push(rt, &mut text, "history\n");
    for number in 1..LONG + 1 {
        let name = if number % 2 == 0 { "a" } else { "b" };
        let line = format!(in rt.alloc(); "id {name} {number} {}\n", number + 2);
        push(rt, &mut text, line.expect(rt, "memory").as_str());
    }
    push(rt, &mut text, "multis\n");
    for number in 1..LONG + 1 {
        let name = if number % 2 == 0 { "a" } else { "b" };
        let line = format!(in rt.alloc(); "hold {name} {number} {number}\n");
        push(rt, &mut text, line.expect(rt, "memory").as_str());
    }
    push(rt, &mut text, "log flushed 8 end 9\n");
    for number in 1..LONG + 1 {
        let line = format!(in rt.alloc(); "{} commit {} {}\n", number + 6, number + 2, number + 3);
        push(rt, &mut text, line.expect(rt, "memory").as_str());
    }
    push(rt, &mut text, "end\n");
    text
}

#[test]
fn long_lists_are_printed_in_order_on_threads(rt: HostRuntime) {
    let wanted = wanted(&rt);
    for threads in [1, 2, 3, 7] {
        let text = printed(&rt, threads);
        check_row(&rt, text.as_str() == wanted.as_str(), "long lists");
    }
}

//! Sources and sinks in memory fail at the planned calls alone.
use crate::runs::source_of;
use std::process::Abort;
use tx_io::{MemSink, Memory, Sink, Source, StdSink, StdSource};

/// A read into two bytes answers so many, or that it failed, and behind it they are these.
fn check_read<S: Source>(
    rt: &impl Abort,
    source: &mut S,
    into: &mut [u8; 2],
    wanted: Option<usize>,
    bytes: &[u8; 2],
) {
    let found = source.read(into.as_mut_slice()).ok();
    assert!(rt; found == wanted && *into == *bytes);
}

/// A write answers so many bytes, or that it failed.
fn check_write<K: Sink>(rt: &impl Abort, sink: &mut K, bytes: &[u8], wanted: Option<usize>) {
    let found = sink.write(bytes).ok();
    assert!(rt; found == wanted);
}

#[test]
fn source_fails_at_the_planned_read_alone(rt: HostRuntime) {
    let mut source = source_of(&rt, "abc", &[2]);
    let mut into = [0; 2];
    check_read(&rt, &mut source, &mut into, Some(2), b"ab");
    check_read(&rt, &mut source, &mut into, None, b"ab");
    check_read(&rt, &mut source, &mut into, Some(1), b"cb");
    check_read(&rt, &mut source, &mut into, Some(0), b"cb");
}

#[test]
fn sink_takes_what_fits(rt: HostRuntime) {
    let failing = vec![in rt.alloc(); 2].expect(&rt, "memory");
    let mut sink = MemSink::new(rt.alloc(), 4, failing).expect(&rt, "memory");
    check_write(&rt, &mut sink, b"ab", Some(2));
    check_write(&rt, &mut sink, b"xy", None);
    assert!(rt; sink.held() == b"ab".as_slice());
    check_write(&rt, &mut sink, b"cdef", None);
    assert!(rt; sink.held() == b"abcd".as_slice());
    check_write(&rt, &mut sink, b"", Some(0));
    check_write(&rt, &mut sink, b"e", None);
}

#[test]
fn no_memory_is_said(rt: HostRuntime) {
    let made = MemSink::new(rt.alloc(), u64::MAX, Vec::new(rt.alloc()));
    assert!(rt; matches!(made, Err(Memory)));
}

#[test]
fn std_streams_pass_bytes_on(rt: HostRuntime) {
    let mut source = StdSource::new(b"abc".as_slice());
    let mut into = [0; 2];
    check_read(&rt, &mut source, &mut into, Some(2), b"ab");
    check_read(&rt, &mut source, &mut into, Some(1), b"cb");
    check_read(&rt, &mut source, &mut into, Some(0), b"cb");
    let mut room = [0; 3];
    let mut sink = StdSink::new(room.as_mut_slice());
    check_write(&rt, &mut sink, b"ab", Some(2));
    check_write(&rt, &mut sink, b"cd", Some(1));
    check_write(&rt, &mut sink, b"d", None);
}

//! Streams and houses, each call once.

use dl_io::{
    Call, House, MemoryHouse, MemorySink, MemorySource, OpenStop, RawMemorySink, RawMemorySource,
    Sink, Source, StdHouse, SystemSink, SystemSource, write_all,
};
use std::alloc::Global;
use std::process::Abort;

fn copied(rt: &impl Abort, alloc: Global, bytes: &[u8]) -> Vec<u8> {
    bytes.to_vec(alloc).expect(rt, "room")
}

/// Calls that fail: the one with the number 1.
fn second(rt: &impl Abort, alloc: Global) -> Vec<usize> {
    [1].to_vec(alloc).expect(rt, "room")
}

#[test]
fn a_source_gives_its_bytes_and_fails_where_it_is_told(rt: HostRuntime) {
    let alloc = rt.alloc();
    let mut source = MemorySource::make(alloc, copied(&rt, alloc, b"abc"), second(&rt, alloc));
    let mut room = [0u8; 2];
    assert!(rt; source.read(&mut room).ok() == Some(2));
    assert!(rt; room == [97, 98]);
    assert!(rt; source.read(&mut room).is_err());
    assert!(rt; source.read(&mut room).ok() == Some(1));
    assert!(rt; source.read(&mut room).ok() == Some(0));
}

#[test]
fn a_sink_keeps_what_was_written(rt: HostRuntime) {
    let alloc = rt.alloc();
    let mut sink = MemorySink::make(alloc, second(&rt, alloc));
    assert!(rt; write_all(&mut sink, b"ab").is_ok());
    assert!(rt; sink.flush().is_err());
    assert!(rt; sink.handed() == b"".as_slice());
    assert!(rt; sink.flush().is_ok());
    assert!(rt; sink.bytes() == b"ab".as_slice());
    assert!(rt; sink.handed() == b"ab".as_slice());
}

fn text(rt: &impl Abort, alloc: Global, text: &str) -> String {
    String::from_str(alloc, text).expect(rt, "a text")
}

#[test]
fn a_house_in_memory_settles_what_it_opened(rt: HostRuntime) {
    let alloc = rt.alloc();
    let mut house = MemoryHouse::make(alloc);
    let name = text(&rt, alloc, "a");
    let put = house.put(
        text(&rt, alloc, "a"),
        copied(&rt, alloc, b"xy"),
        Vec::new(alloc),
        Vec::new(alloc),
    );
    assert!(rt; put.is_ok());
    if let Ok(source) = house.input(&name) {
        house.settle_in(&name, source);
    }
    if let Ok(mut sink) = house.output(&name) {
        let written = write_all(&mut sink, b"z");
        let flushed = sink.flush();
        let late = write_all(&mut sink, b"not flushed");
        house.settle_out(&name, sink);
        assert!(rt; written.is_ok() && flushed.is_ok() && late.is_ok());
    }
    assert!(rt; house.wrote(&name) == Some(b"z".as_slice()));
    let other = text(&rt, alloc, "b");
    assert!(rt; house.wrote(&other).is_none());
    assert!(rt; matches!(house.input(&other), Err(OpenStop::Failed)));
}

#[test]
fn a_house_over_files_gives_what_it_got(rt: HostRuntime) {
    let alloc = rt.alloc();
    let id = std::process::id(rt.process());
    let name = format!(in alloc; "/tmp/ddl_streams_{id}").expect(&rt, "a name");
    let mut house = StdHouse::make(&rt).expect(&rt, "a house");
    if let Ok(mut sink) = house.output(&name) {
        let written = write_all(&mut sink, b"hello");
        let flushed = sink.flush();
        house.settle_out(&name, sink);
        assert!(rt; written.is_ok());
        assert!(rt; flushed.is_ok());
    }
    let mut room = [0u8; 8];
    let mut count = 0;
    if let Ok(mut source) = house.input(&name) {
        if let Ok(read) = source.read(&mut room) {
            count = read;
        }
        house.settle_in(&name, source);
    }
    assert!(rt; count == 5);
    assert!(rt; room == *b"hello\0\0\0");
    let missing = format!(in alloc; "/tmp/ddl_streams_{id}/none").expect(&rt, "a name");
    assert!(rt; matches!(house.input(&missing), Err(OpenStop::Failed)));
}

/// A sink that holds back so many bytes, over calls that do what the plan says.
fn planned(
    rt: &impl Abort,
    alloc: Global,
    room: usize,
    plan: &[Call],
) -> SystemSink<RawMemorySink> {
    let plan = plan.to_vec(alloc).expect(rt, "a plan");
    let raw = RawMemorySink::make(alloc, plan);
    SystemSink::make(alloc, raw, String::new(alloc), room).expect(rt, "room")
}

#[test]
fn short_writes_are_continued(rt: HostRuntime) {
    let plan = [
        Call::AtMost(1),
        Call::Interrupted,
        Call::AtMost(2),
        Call::Interrupted,
    ];
    let mut sink = planned(&rt, rt.alloc(), 4, &plan);
    assert!(rt; write_all(&mut sink, b"abc").is_ok());
    assert!(rt; sink.raw().bytes() == b"".as_slice());
    assert!(rt; write_all(&mut sink, b"large piece").is_ok());
    assert!(rt; write_all(&mut sink, b".").is_ok());
    assert!(rt; sink.flush().is_ok());
    assert!(rt; sink.raw().bytes() == b"abclarge piece.".as_slice());
}

#[test]
fn a_flush_that_fails_goes_on_where_it_stopped(rt: HostRuntime) {
    let plan = [Call::AtMost(2), Call::Fails, Call::AtMost(0)];
    let mut sink = planned(&rt, rt.alloc(), 8, &plan);
    assert!(rt; write_all(&mut sink, b"abcd").is_ok());
    assert!(rt; sink.flush().is_err());
    assert!(rt; sink.raw().bytes() == b"ab".as_slice());
    // the system takes nothing of some bytes
    assert!(rt; sink.flush().is_err());
    assert!(rt; sink.flush().is_ok());
    assert!(rt; sink.raw().bytes() == b"abcd".as_slice());
}

#[test]
fn an_interrupted_read_is_tried_again(rt: HostRuntime) {
    let alloc = rt.alloc();
    let plan = [Call::Interrupted, Call::AtMost(1), Call::Fails];
    let plan = plan.to_vec(alloc).expect(&rt, "a plan");
    let raw = RawMemorySource::make(copied(&rt, alloc, b"abc"), plan);
    let mut source = SystemSource::make(raw, String::new(alloc));
    let mut room = [0u8; 4];
    assert!(rt; source.read(&mut room).ok() == Some(1));
    assert!(rt; source.read(&mut room).is_err());
    assert!(rt; source.read(&mut room).ok() == Some(2));
    assert!(rt; room == *b"bc\0\0");
    assert!(rt; source.read(&mut room).ok() == Some(0));
}

#[test]
fn signals_without_end_are_a_fault(rt: HostRuntime) {
    let plan = vec![in rt.alloc(); Call::Interrupted; 1_000_000].expect(&rt, "a plan");
    let mut sink = planned(&rt, rt.alloc(), 0, plan.as_slice());
    assert!(rt; sink.write(b"a").is_err());
    assert!(rt; sink.raw().bytes() == b"".as_slice());
}

#[test]
fn a_full_device_fails_at_the_flush_at_the_latest(rt: HostRuntime) {
    let alloc = rt.alloc();
    let name = text(&rt, alloc, "/dev/full");
    let mut house = StdHouse::make(&rt).expect(&rt, "a house");
    if let Ok(mut sink) = house.output(&name) {
        let written = write_all(&mut sink, b"lost");
        let flushed = sink.flush();
        house.settle_out(&name, sink);
        assert!(rt; written.is_err() || flushed.is_err());
    }
}

//! Sources that are read and sinks that are written, in memory and over readers and writers.
use emv_ports::{
    Failed, MemorySink, MemorySource, ReadFault, Sink, Source, StdinSource, StdoutSink, read_up_to,
    write_all,
};
use std::alloc::Global;
use std::test::Fail;

/// The room of a call of `read`, what it gives, and the buffer then.
type Reading = (usize, Result<usize, Failed>, [u8; 4]);

/// Whether the calls give this, all of them with the front of one buffer.
fn reads_in_turn(source: &mut impl Source, calls: &[Reading]) -> bool {
    let mut out = [0u8; 4];
    for (room, wanted, held) in calls {
        if *room > 4 || source.read(&mut out[..*room]) != *wanted || out != *held {
            return false;
        }
    }
    true
}

/// A source's bytes, its calls that fail, the most bytes of a call, 0 where nothing limits it, and its calls.
const SOURCES: [(&[u8], &[u32], usize, &[Reading]); 3] = [
    (
        &[1, 2, 3],
        &[2],
        0,
        &[
            (2, Ok(2), [1, 2, 0, 0]),
            (2, Err(Failed), [1, 2, 0, 0]),
            (2, Ok(1), [3, 2, 0, 0]),
            (2, Ok(0), [3, 2, 0, 0]),
        ],
    ),
    (
        &[1, 2, 3, 4, 5],
        &[],
        2,
        &[
            (4, Ok(2), [1, 2, 0, 0]),
            (4, Ok(2), [3, 4, 0, 0]),
            (4, Ok(1), [5, 4, 0, 0]),
            (4, Ok(0), [5, 4, 0, 0]),
        ],
    ),
    (
        &[1, 2, 3],
        &[2],
        2,
        &[
            (4, Ok(2), [1, 2, 0, 0]),
            (4, Err(Failed), [1, 2, 0, 0]),
            (1, Ok(1), [3, 2, 0, 0]),
            (4, Ok(0), [3, 2, 0, 0]),
        ],
    ),
];

/// A source of these bytes; where `most` is 0 nothing limits a call.
fn source_of(
    alloc: Global,
    bytes: &[u8],
    fails: &[u32],
    most: usize,
) -> Result<MemorySource, Fail> {
    let (bytes, fails) = (bytes.to_vec(alloc)?, fails.to_vec(alloc)?);
    if most == 0 {
        return Ok(MemorySource::new(bytes, fails));
    }
    Ok(MemorySource::slow(bytes, fails, most))
}

#[test]
fn sources_give_their_bytes_and_fail_at_numbered_calls(rt: HostRuntime) -> Result<(), Fail> {
    for (bytes, fails, most, calls) in SOURCES {
        let mut source = source_of(rt.alloc(), bytes, fails, most)?;
        assert!(rt; reads_in_turn(&mut source, calls), "{bytes:?} {most}");
    }
    Ok(())
}

/// The bytes of a reader, and the calls of a source over it.
const READERS: [(&[u8], &[Reading]); 2] = [
    (b"abc", &[(2, Ok(2), *b"ab\0\0")]),
    (
        b"abc",
        &[
            (2, Ok(2), *b"ab\0\0"),
            (2, Ok(1), *b"cb\0\0"),
            (2, Ok(0), *b"cb\0\0"),
            (2, Ok(0), *b"cb\0\0"),
        ],
    ),
];

#[test]
fn readers_are_read_to_their_end(rt: HostRuntime) {
    for (bytes, calls) in READERS {
        let mut source = StdinSource::new(bytes);
        assert!(rt; reads_in_turn(&mut source, calls), "{bytes:?}");
    }
}

/// The pieces of the calls of `write`, and what they give.
type Writing = (&'static [u8], Result<usize, Failed>);

/// A sink's room, its calls that fail, the most bytes of a call, 0 where nothing limits it, its calls and the
/// bytes that it holds then.
const SINKS: [(usize, &[u32], usize, &[Writing], &[u8]); 2] = [
    (
        5,
        &[2],
        0,
        &[
            (&[1, 2, 3], Ok(3)),
            (&[4], Err(Failed)),
            (&[], Ok(0)),
            (&[4, 5, 6], Ok(2)),
            (&[6], Err(Failed)),
        ],
        &[1, 2, 3, 4, 5],
    ),
    (
        6,
        &[2],
        2,
        &[
            (&[1, 2, 3], Ok(2)),
            (&[3], Err(Failed)),
            (&[3], Ok(1)),
            (&[4, 5, 6], Ok(2)),
            (&[6, 7], Ok(1)),
            (&[7], Err(Failed)),
        ],
        &[1, 2, 3, 4, 5, 6],
    ),
];

/// A sink with so much room; where `most` is 0 nothing limits a call.
fn sink_of(alloc: Global, room: usize, fails: &[u32], most: usize) -> Result<MemorySink, Fail> {
    let fails = fails.to_vec(alloc)?;
    if most == 0 {
        return Ok(MemorySink::new(alloc, room, fails)?);
    }
    Ok(MemorySink::slow(alloc, room, fails, most)?)
}

fn writes_in_turn(sink: &mut MemorySink, calls: &[Writing]) -> bool {
    for (piece, wanted) in calls {
        if sink.write(piece) != *wanted {
            return false;
        }
    }
    true
}

#[test]
fn sinks_take_what_fits_and_fail_at_numbered_calls(rt: HostRuntime) -> Result<(), Fail> {
    for (room, fails, most, calls, held) in SINKS {
        let mut sink = sink_of(rt.alloc(), room, fails, most)?;
        assert!(rt;
            writes_in_turn(&mut sink, calls) && sink.bytes() == held,
            "{room} {most}"
        );
    }
    Ok(())
}

/// A text that is written whole, and what comes of it.
type Text = (&'static [u8], Result<(), Failed>);

/// A sink's room, the most bytes of a call, 0 where nothing limits it, the texts and the bytes that it holds
/// then.
const TEXTS: [(usize, usize, &[Text], &[u8]); 2] = [
    (5, 2, &[(b"abcde", Ok(()))], b"abcde"),
    (4, 0, &[(b"abc", Ok(())), (b"def", Err(Failed))], b"abcd"),
];

fn writes_all(sink: &mut MemorySink, texts: &[Text]) -> bool {
    for (text, wanted) in texts {
        if write_all(sink, text) != *wanted {
            return false;
        }
    }
    true
}

#[test]
fn texts_are_written_whole_or_up_to_the_fault(rt: HostRuntime) -> Result<(), Fail> {
    for (room, most, texts, held) in TEXTS {
        let mut sink = sink_of(rt.alloc(), room, &[], most)?;
        assert!(rt;
            writes_all(&mut sink, texts) && sink.bytes() == held,
            "{held:?}"
        );
    }
    Ok(())
}

#[test]
fn writers_take_whole_pieces(rt: HostRuntime) {
    let mut sink = StdoutSink::new(Vec::new(rt.alloc()));
    assert!(rt; sink.write(b"xyz") == Ok(3));
}

/// The calls that fail, a limit, and how many of 10,000 bytes are read up to it.
const LIMITS: [(&[u32], usize, Result<usize, ReadFault>); 5] = [
    (&[], 0, Ok(0)),
    (&[], 9999, Ok(9999)),
    (&[], 10000, Ok(10000)),
    (&[], 20000, Ok(10000)),
    (&[3], 20000, Err(ReadFault::Failed)),
];

#[test]
fn sources_are_read_to_their_end_or_to_a_limit(rt: HostRuntime) -> Result<(), Fail> {
    for (fails, most, wanted) in LIMITS {
        let mut source = source_of(rt.alloc(), &[7; 10000], fails, 0)?;
        let read = match read_up_to(rt.alloc(), &mut source, most) {
            Ok(bytes) => Ok(bytes.len()),
            Err(fault) => Err(fault),
        };
        assert!(rt; read == wanted, "up to {most}");
    }
    Ok(())
}

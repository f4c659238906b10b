//! Lines at a reader, and the document before them.
use emv_ports::{MemorySource, ReadFault};
use line_talk::document::MOST_DOCUMENT;
use line_talk::{Came, LineText, Preamble, number_of, read_line, read_preamble};
use std::alloc::Global;
use std::test::Fail;

/// A source of these bytes, three at a time, whose calls of these numbers fail.
fn source_of(alloc: Global, bytes: &[u8], fails: &[u32]) -> Result<MemorySource, Fail> {
    Ok(MemorySource::slow(bytes.to_vec(alloc)?, fails.to_vec(alloc)?, 3))
}

/// What comes of a source, one after the other, and the text of the line then.
const COMING: [(Came, &str); 5] = [
    (Came::Line, "power"),
    (Came::Line, ""),
    (Came::Line, "00a4\r"),
    (Came::End, "rest"),
    (Came::End, ""),
];

#[test]
fn lines_come_one_by_one(rt: HostRuntime) -> Result<(), Fail> {
    let mut source = source_of(rt.alloc(), b"power\n\n00a4\r\nrest", &[])?;
    let mut line = LineText::new();
    for row in &COMING {
        let (came, wanted) = *row;
        let found = read_line(&mut source, &mut line);
        let is_line = line.as_slice() == wanted.as_bytes();
        assert!(rt; found == Ok(came) && is_line, "{wanted}");
    }
    Ok(())
}

#[test]
fn a_line_without_end_is_left(rt: HostRuntime) -> Result<(), Fail> {
    let mut line = LineText::new();
    let mut longest = [b'x'; 8192];
    for (last, came) in [(b'\n', Came::Line), (b'x', Came::Long)] {
        longest[8191] = last;
        let mut source = source_of(rt.alloc(), &longest, &[])?;
        let found = read_line(&mut source, &mut line);
        let is_whole = last != b'\n' || line.len() == 8191;
        assert!(rt; found == Ok(came) && is_whole, "{last}");
    }
    let mut source = source_of(rt.alloc(), b"off\n", &[3])?;
    assert!(rt; read_line(&mut source, &mut line).is_err());
    Ok(())
}

/// The greatest number, a text, and the number that it is.
const NUMBERS: [(u32, &str, Option<u32>); 15] = [
    (255, "0", Some(0)),
    (255, "007", Some(7)),
    (255, "255", Some(255)),
    (MOST_DOCUMENT, "4194304", Some(4_194_304)),
    (MOST_DOCUMENT, "4194305", None),
    (255, "", None),
    (255, "256", None),
    (255, "99999999999999999999", None),
    (255, "-1", None),
    (255, "+1", None),
    (255, " 1", None),
    (255, "1 ", None),
    (255, "1x", None),
    (255, "/", None),
    (255, ":", None),
];

#[test]
fn numbers_are_digits(rt: HostRuntime) {
    for row in &NUMBERS {
        let (most, text, wanted) = *row;
        assert!(rt; most <= MOST_DOCUMENT);
        assert!(rt; number_of(most, text.as_bytes()) == wanted, "{text}");
    }
}

/// What stands first in a text.
fn given_in(
    alloc: Global,
    text: &[u8],
    fails: &[u32],
) -> Result<Result<Preamble, ReadFault>, Fail> {
    let mut source = source_of(alloc, text, fails)?;
    Ok(read_preamble(alloc, &mut source))
}

/// A text, the calls that fail, and whether a document of four bytes stands first, something else or a fault.
const GIVEN: [(&[u8], &[u32], &str); 12] = [
    (b"document 4\na\nb\npower\n", &[], "document"),
    (b"document 00000004\na\nb\npower\n", &[], "document"),
    (b"", &[], "other"),
    (b"document", &[], "other"),
    (b"document 4", &[], "other"),
    (b"document 4\nabc", &[], "other"),
    (b"document x\n", &[], "other"),
    (b"\ndocument 4\na\nb\n", &[], "other"),
    (b"power\n", &[], "other"),
    (b"document 4194305\n", &[], "other"),
    (b"document 1\r\na", &[], "other"),
    (b"document 4\na\nb\npower\n", &[12], "fault"),
];

#[test]
fn a_document_stands_first(rt: HostRuntime) -> Result<(), Fail> {
    for row in &GIVEN {
        let (text, fails, wanted) = *row;
        let found = match given_in(rt.alloc(), text, fails)? {
            Ok(Preamble::Document(bytes)) => {
                if bytes.as_slice() == b"a\nb\n".as_slice() {
                    "document"
                } else {
                    "another document"
                }
            }
            Ok(Preamble::Other) => "other",
            Err(ReadFault::Failed) => "fault",
            Err(_) => "another fault",
        };
        assert!(rt; found == wanted, "{text:?}");
    }
    Ok(())
}

//! Sources and sinks: those in memory, and over readers and writers that fail or are interrupted.
use crate::asserting::{holds, same, same_bytes, same_in_row};
use shb_io::{Endless, Failed, FromRead, Keys, Page, Sink, Source, Text, ToWrite, write_all};
use std::io::{self, BufWriter, ErrorKind, Read, Write};
use std::test::Fail;

#[test]
fn a_text_is_read(rt: HostRuntime) {
    let mut text = Text::new(b"abcde", 2, Some(3));
    let mut buf = [0; 10];
    same(&rt, &text.read(&mut buf), &Ok(2), "as much as a step");
    same(
        &rt,
        &text.read(&mut buf[..1]),
        &Ok(1),
        "as much as has room",
    );
    same(&rt, &text.read(&mut buf), &Err(Failed), "the third read");
    same(&rt, &text.failures(), &1, "failures");
    same(&rt, &text.read(&mut buf), &Ok(2), "the rest");
    same_bytes(&rt, &buf[..2], b"de", "no byte is lost");
    same(&rt, &text.read(&mut buf), &Ok(0), "the end");
}

#[test]
fn a_page_is_written(rt: HostRuntime) -> Result<(), Fail> {
    let mut page = Page::new(rt.alloc(), 4, 3, Some(2))?;
    same(&rt, &page.write(b"abcde"), &Ok(3), "as much as a step");
    same(&rt, &page.write(b"de"), &Err(Failed), "the second write");
    same(&rt, &page.write(b"de"), &Ok(1), "as much as has room");
    same(&rt, &page.write(b"e"), &Err(Failed), "a full page");
    same(&rt, &page.failures(), &2, "failures");
    same_bytes(&rt, page.bytes(), b"abcd", "the bytes");
    Ok(())
}

#[test]
fn all_is_written_or_the_beginning(rt: HostRuntime) -> Result<(), Fail> {
    let mut page = Page::new(rt.alloc(), 5, 2, None)?;
    same(&rt, &write_all(&mut page, b""), &Ok(()), "nothing");
    same(&rt, &write_all(&mut page, b"abc"), &Ok(()), "what has room");
    same(
        &rt,
        &write_all(&mut page, b"def"),
        &Err(Failed),
        "what has none",
    );
    same_bytes(&rt, page.bytes(), b"abcde", "the bytes");
    Ok(())
}

#[test]
fn a_source_without_an_end(rt: HostRuntime) {
    let mut endless = Endless::new(b'q');
    let mut buf = [0; 3];
    for given in [3, 6, 9] {
        same(&rt, &endless.read(&mut buf), &Ok(3), "a full buffer");
        same_bytes(&rt, &buf, b"qqq", "the bytes");
        same(&rt, &endless.given(), &given, "bytes given");
    }
    same(&rt, &endless.failures(), &0, "failures");
}

/// A reader and writer whose first calls, flushes too, fail in this way. It then gives one byte at each
/// read, and takes everything.
#[derive(Drop)]
struct Failing {
    times: u32,
    kind: ErrorKind,
}

impl Failing {
    /// Whether this call goes well.
    fn call(&mut self) -> io::Result<()> {
        if self.times > 0 {
            self.times -= 1;
            return Err(io::Error::from(self.kind));
        }
        Ok(())
    }
}

impl Read for Failing {
    fn read(&mut self, buf: &mut [u8]) -> io::Result<usize> {
        self.call()?;
        match buf.first_mut() {
            Some(byte) => {
                *byte = b'x';
                Ok(1)
            }
            None => Ok(0),
        }
    }
}

impl Write for Failing {
    fn write(&mut self, buf: &[u8]) -> io::Result<usize> {
        self.call()?;
        Ok(buf.len())
    }

    fn flush(&mut self) -> io::Result<()> {
        self.call()
    }
}

/// A writer that takes no bytes at its first write, and then everything.
#[derive(Drop)]
struct Hesitant {
    is_asked: bool,
}

impl Write for Hesitant {
    fn write(&mut self, buf: &[u8]) -> io::Result<usize> {
        if self.is_asked {
            return Ok(buf.len());
        }
        self.is_asked = true;
        Ok(0)
    }

    fn flush(&mut self) -> io::Result<()> {
        Ok(())
    }
}

/// How many calls fail in which way, what a read or a write of a byte answers, and the failures then.
const CALLS: [(u32, ErrorKind, Result<usize, Failed>, u64); 3] = [
    (1_000, ErrorKind::Interrupted, Ok(1), 0),
    (1_001, ErrorKind::Interrupted, Err(Failed), 1),
    (1, ErrorKind::BrokenPipe, Err(Failed), 1),
];

#[test]
fn interruptions_alone_are_tried_again(rt: HostRuntime) {
    for (row, (times, kind, want, failures)) in CALLS.iter().enumerate() {
        let (times, kind) = (*times, *kind);
        let mut buf = [0; 10];
        let mut source = FromRead::new(Failing { times, kind });
        same_in_row(&rt, &source.read(&mut buf), want, row);
        same_in_row(&rt, &source.failures(), failures, row);
        let mut sink = ToWrite::new(Failing { times, kind });
        same_in_row(&rt, &sink.write(b"a"), want, row);
        same_in_row(&rt, &sink.failures(), failures, row);
        let finished = ToWrite::new(Failing { times, kind }).finish();
        same_in_row(&rt, &finished.is_ok(), &want.is_ok(), row);
        let handed_back = ToWrite::new(Failing { times, kind }).into_writer();
        same_in_row(&rt, &handed_back.is_ok(), &want.is_ok(), row);
    }
}

#[test]
fn a_write_of_no_bytes_is_a_failure_at_once(rt: HostRuntime) {
    let mut sink = ToWrite::new(Hesitant { is_asked: false });
    same(&rt, &sink.write(b"a"), &Err(Failed), "a write");
    same(&rt, &sink.failures(), &1, "failures");
}

#[test]
fn all_bytes_arrive_through_a_buffer(rt: HostRuntime) -> Result<(), Fail> {
    let mut memory = Vec::new(rt.alloc());
    let mut sink = ToWrite::new(BufWriter::with_capacity(rt.alloc(), 4, &mut memory)?);
    write_all(&mut sink, b"abc")?;
    write_all(&mut sink, b"defghij")?;
    sink.finish()?;
    same_bytes(&rt, memory.as_slice(), b"abcdefghij", "the memory");
    Ok(())
}

/// Two keys of one run differ, but for a chance of 1 in 2^128.
#[test]
fn keys_are_new_each_time(rt: HostRuntime) -> Result<(), Fail> {
    let (one, other) = (Keys::random(&rt)?, Keys::random(&rt)?);
    holds(
        &rt,
        (one.first(), one.second()) != (other.first(), other.second()),
        "other keys",
    );
    Ok(())
}

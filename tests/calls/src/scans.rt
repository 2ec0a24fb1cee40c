//! `run_scan` and its two parts, `scan_line`, `scan_message` and `status_of_scan`: scans, refusals, and devices that fail.
use crate::asserting::{Host, holds, same, same_bytes};
use shb_io::{NoMemory, Page, Text};
use shb_lines::Fault;
use shb_scan::{
    ScanError, read_scan, run_scan, scan_line, scan_message, status_of_scan, write_found,
};
use std::test::Fail;

/// Two threads read what a third wrote: one place, whose nearest race is that of the first reader.
const READERS: &str = "T1|w(y)|1\nT2|r(y)|2\r\n\nT3|r(y)|2";

const SCAN_OF_READERS: &str =
    "shb-report 2\nevents 3 threads 3 locks 0 variables 1\nraces 1\nplaces 1\nplace 1: 1\nat 1\nand 2\nrace 1: 1 2\nfirst T1|w(y)|1\nsecond T2|r(y)|2\nend\n";

/// The answer of a scan of a text that is read in such steps, and what was written.
fn scanned(
    rt: &impl Host,
    text: &str,
    step: usize,
    read_fails: Option<u64>,
    write_fails: Option<u64>,
) -> Result<(Result<(), ScanError>, Page), NoMemory> {
    let mut source = Text::new(text.as_bytes(), step, read_fails);
    let mut sink = Page::new(rt.alloc(), 4096, step, write_fails)?;
    let answer = run_scan(rt, rt.alloc(), false, &mut source, &mut sink);
    Ok((answer, sink))
}

#[test]
fn lists_the_nearest_race(rt: HostRuntime) -> Result<(), Fail> {
    for step in [1, 2, 7, 4096] {
        let (answer, page) = scanned(&rt, READERS, step, None, None)?;
        same(&rt, &status_of_scan(&answer), &0, "the status");
        same_bytes(&rt, page.bytes(), SCAN_OF_READERS.as_bytes(), "the scan");
    }
    Ok(())
}

#[test]
fn reads_and_then_writes(rt: HostRuntime) -> Result<(), Fail> {
    let mut source = Text::new(READERS.as_bytes(), 5, None);
    let mut sink = Page::new(rt.alloc(), 4096, 5, None)?;
    let Ok(found) = read_scan(&rt, rt.alloc(), false, &mut source) else {
        return Err("a trace without a fault was refused".into());
    };
    holds(&rt, write_found(&mut sink, &found).is_ok(), "it is written");
    same_bytes(&rt, sink.bytes(), SCAN_OF_READERS.as_bytes(), "the scan");
    let words = scan_message(Fault::TooManyThreads);
    let said = "there are more than 65535 threads";
    same_bytes(&rt, words.as_bytes(), said.as_bytes(), "the words");
    Ok(())
}

#[test]
fn refuses_a_trace_at_its_first_fault(rt: HostRuntime) -> Result<(), Fail> {
    let text = "T1|acq(l)|1\n\nT2|acq(l)|2\nT1\n";
    let (answer, page) = scanned(&rt, text, 3, None, None)?;
    holds(&rt, page.bytes().is_empty(), "nothing is written");
    same(&rt, &status_of_scan(&answer), &2, "the status");
    let Err(error) = answer else {
        return Err("a lock that is held was acquired".into());
    };
    let wanted = ScanError::Trace {
        line: 3,
        fault: Fault::LockHeld,
    };
    same(&rt, &error, &wanted, "the fault");
    let line = scan_line(rt.alloc(), &error)?;
    let said = "line 3: the lock is held by another thread";
    same_bytes(&rt, line.as_bytes(), said.as_bytes(), "the words");
    Ok(())
}

#[test]
fn names_the_device_that_fails(rt: HostRuntime) -> Result<(), Fail> {
    let (answer, page) = scanned(&rt, READERS, 8, Some(2), None)?;
    holds(&rt, page.bytes().is_empty(), "nothing is written");
    same(&rt, &answer, &Err(ScanError::Source), "the source");
    let (answer, page) = scanned(&rt, READERS, 8, None, Some(2))?;
    same(&rt, &answer, &Err(ScanError::Sink), "the sink");
    holds(
        &rt,
        SCAN_OF_READERS.as_bytes().starts_with(page.bytes()),
        "the front of the scan",
    );
    Ok(())
}

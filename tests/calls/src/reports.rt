//! The parts of a report, one call each; places; and reports that are read.
use crate::asserting::{Host, holds, same, same_bytes};
use crate::traces::{
    Asks, Form, OLDER, WHOLE, WORKED, Worked, ask_of, from_zero, line_of, located, pairs_of,
    parsed, report_of,
};
use shb_discipline::Disciplined;
use shb_io::{Failed, Page, Text};
use shb_lines::Pair;
use shb_links::Links;
use shb_report::{
    Counts, Places, Report, ReportError, Verdict, block, check_report, head, place_lines,
    places_of, read_report, read_report_within, tail,
};
use std::test::Fail;

/// Writes the report of a row part by part.
fn write_parts(rt: &impl Host, row: &Worked<'_>, form: Form) -> Result<Page, Fail> {
    let parsed = parsed(rt, row.text)?;
    let trace = &parsed.trace;
    let mut page = Page::new(rt.alloc(), 10_000, 7, None)?;
    let pairs = pairs_of(rt.alloc(), row)?;
    let counts = Counts {
        events: row.counts.0,
        threads: row.counts.1,
        locks: row.counts.2,
        variables: row.counts.3,
    };
    is_written(head(&mut page, &counts, pairs.len() as u64))?;
    let places = places_of(rt, rt.alloc(), trace, pairs.as_slice())?;
    is_written(place_lines(&mut page, trace, &places))?;
    for (k, pair) in pairs.iter().enumerate() {
        let schedule = from_zero(rt.alloc(), row.races[k].2)?;
        let shown = if form.schedules {
            Some(schedule.as_slice())
        } else {
            None
        };
        is_written(block(&mut page, trace, k as u64 + 1, *pair, shown))?;
    }
    is_written(tail(&mut page))?;
    Ok(page)
}

fn is_written(answer: Result<(), Failed>) -> Result<(), Fail> {
    match answer {
        Ok(()) => Ok(()),
        Err(Failed) => Err("a page with room failed".into()),
    }
}

#[test]
fn parts_make_reports(rt: HostRuntime) -> Result<(), Fail> {
    for row in &WORKED {
        for schedules in [true, false] {
            let form = Form {
                version: 2,
                schedules,
            };
            let page = write_parts(&rt, row, form)?;
            let wanted = report_of(rt.alloc(), row, form)?;
            same_bytes(&rt, page.bytes(), wanted.as_bytes(), row.text);
        }
    }
    Ok(())
}

/// A page that is full at once, for each part.
#[test]
fn parts_tell_of_a_sink_that_fails(rt: HostRuntime) -> Result<(), Fail> {
    let row = located();
    let parsed = parsed(&rt, row.text)?;
    let pairs = pairs_of(rt.alloc(), &row)?;
    let places = places_of(&rt, rt.alloc(), &parsed.trace, pairs.as_slice())?;
    let counts = Counts {
        events: 2,
        threads: 2,
        locks: 0,
        variables: 1,
    };
    let mut full = Page::new(rt.alloc(), 0, 1, None)?;
    same(&rt, &head(&mut full, &counts, 1), &Err(Failed), "the head");
    same(
        &rt,
        &place_lines(&mut full, &parsed.trace, &places),
        &Err(Failed),
        "the places",
    );
    same(
        &rt,
        &block(&mut full, &parsed.trace, 1, pairs[0], None),
        &Err(Failed),
        "a block",
    );
    same(&rt, &tail(&mut full), &Err(Failed), "the tail");
    Ok(())
}

/// Places are in the order of their first races, and a pair of locations turned round is another place.
#[test]
fn places_of_pairs(rt: HostRuntime) -> Result<(), Fail> {
    let parsed = parsed(&rt, "A|w(x)|p\nB|w(x)|q\nC|w(x)|p\n")?;
    let pairs = [
        Pair {
            first: 1,
            second: 2,
        },
        Pair {
            first: 0,
            second: 1,
        },
        Pair {
            first: 1,
            second: 2,
        },
        Pair {
            first: 0,
            second: 2,
        },
    ];
    let places: Places = places_of(&rt, rt.alloc(), &parsed.trace, &pairs)?;
    same(&rt, &places.len(), &3, "places");
    for (q, count, first) in [(0, 2, pairs[0]), (1, 1, pairs[1]), (2, 1, pairs[3])] {
        same(&rt, &places.count(q), &count, "how many pairs");
        same(&rt, &places.pair(q), &first, "the first of them");
    }
    Ok(())
}

/// Asserts that a report was read as it was put together.
fn expect_report(rt: &impl Host, report: &Report, row: &Worked<'_>, form: Form) {
    let found = report.counts();
    let found = (found.events, found.threads, found.locks, found.variables);
    same(rt, &found, &row.counts, "the counts");
    same(rt, &report.version(), &form.version, "the version");
    same(rt, &report.len(), &(row.races.len() as u64), "races");
    let places = if form.version == 2 { row.places } else { &[] };
    same(rt, &report.places(), &(places.len() as u64), "places");
    for (q, place) in places.iter().enumerate() {
        let (count, first, second) = *place;
        same(rt, &report.place_count(q as u64), &count, "how many races");
        same_bytes(
            rt,
            report.place_first(q as u64),
            first.as_bytes(),
            "the first location",
        );
        same_bytes(
            rt,
            report.place_second(q as u64),
            second.as_bytes(),
            "the second",
        );
    }
    for (k, race) in row.races.iter().enumerate() {
        expect_block(rt, report, k as u64, row, *race);
    }
}

fn expect_block(
    rt: &impl Host,
    report: &Report,
    k: u64,
    row: &Worked<'_>,
    race: (u32, u32, &[u32]),
) {
    let (first, second, schedule) = race;
    let found = (report.first(k), report.second(k));
    same(
        rt,
        &found,
        &(u64::from(first), u64::from(second)),
        "the events",
    );
    same_bytes(
        rt,
        report.first_line(k),
        line_of(row.text, first).as_bytes(),
        "the first line",
    );
    same_bytes(
        rt,
        report.second_line(k),
        line_of(row.text, second).as_bytes(),
        "the second",
    );
    same(
        rt,
        &report.schedule(k).len(),
        &schedule.len(),
        "the schedule's length",
    );
    for (p, event) in schedule.iter().enumerate() {
        same(
            rt,
            &report.schedule(k)[p],
            &u64::from(*event),
            "an event of the schedule",
        );
    }
}

/// The report of a row is read, and judged good for its trace.
#[derive(Clone, Copy)]
struct ReportsAreGood<'a> {
    row: &'a Worked<'a>,
    form: Form,
}

impl Asks for ReportsAreGood<'_> {
    fn ask<H: Host>(&self, rt: &H, trace: &Disciplined<'_>, links: &Links<'_>) -> Result<(), Fail> {
        let text = report_of(rt.alloc(), self.row, self.form)?;
        let mut source = Text::new(text.as_bytes(), 11, None);
        let report = read_report(rt.alloc(), &mut source)?;
        expect_report(rt, &report, self.row, self.form);
        let verdict = check_report(rt, rt.alloc(), trace, links, &report)?;
        let races = self.row.races.len() as u64;
        same(rt, &verdict, &Verdict::Good { races }, "the verdict");
        Ok(())
    }
}

#[test]
fn reports_are_read(rt: HostRuntime) -> Result<(), Fail> {
    for row in &WORKED {
        for form in [WHOLE, OLDER] {
            ask_of(&rt, row.text, &ReportsAreGood { row, form })?;
        }
    }
    Ok(())
}

/// The older report of the first worked trace has 121 bytes; of fewer the line with the byte too many is bad.
#[test]
fn no_more_is_read_than_a_limit(rt: HostRuntime) -> Result<(), Fail> {
    let text = report_of(rt.alloc(), &located(), OLDER)?;
    same(&rt, &text.len(), &121, "bytes");
    for (limit, wanted) in [
        (12, Some(1)),
        (13, Some(2)),
        (20, Some(2)),
        (120, Some(8)),
        (121, None),
        (122, None),
    ] {
        let mut source = Text::new(text.as_bytes(), 5, None);
        let bad = match read_report_within(rt.alloc(), &mut source, limit) {
            Ok(_) => None,
            Err(ReportError::BadLine(line)) => Some(line),
            Err(_) => return Err("neither read nor a bad line".into()),
        };
        same(&rt, &bad, &wanted, "the bad line");
    }
    let mut source = Text::new(text.as_bytes(), 5, Some(2));
    let answer = read_report(rt.alloc(), &mut source);
    holds(
        &rt,
        matches!(answer, Err(ReportError::Source)),
        "a read that fails",
    );
    Ok(())
}

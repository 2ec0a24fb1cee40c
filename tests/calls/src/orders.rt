//! Links, and the forms of the order: what each says of each event, against plain definitions over the list of events.
use crate::asserting::{Host, same};
use crate::traces::{Asks, WORKED, ask_of, joined_unborn, passed_on, through_a_read};
use shb_clocks::{
    ClockVersions, FullClocks, ListedRows, Order, PlainOrder, at_events, full, plain, versions,
};
use shb_discipline::Disciplined;
use shb_io::NoMemory;
use shb_lines::{Op, Trace};
use shb_links::{Linked, Links};
use std::alloc::Global;
use std::test::Fail;

/// The fork of a thread.
fn fork_of(trace: &Trace, thread: u32) -> Option<u32> {
    for e in 0..trace.len() {
        if trace.event(e).op == Op::Fork(thread) {
            return Some(e);
        }
    }
    None
}

/// The place of an event in its thread, from 1, and its predecessor: the event before it there, or the thread's fork.
fn local_and_pred(trace: &Trace, e: u32) -> (u32, Option<u32>) {
    let thread = trace.event(e).thread;
    let mut local = 1;
    let mut pred = fork_of(trace, thread);
    for f in 0..e {
        if trace.event(f).thread == thread {
            local += 1;
            pred = Some(f);
        }
    }
    (local, pred)
}

/// The latest earlier write of what an event reads.
fn last_write_of(trace: &Trace, e: u32) -> Option<u32> {
    let Op::Read(x) = trace.event(e).op else {
        return None;
    };
    let mut last = None;
    for f in 0..e {
        if trace.event(f).op == Op::Write(x) {
            last = Some(f);
        }
    }
    last
}

#[derive(Clone, Copy)]
struct LinksAreDefined;

impl Asks for LinksAreDefined {
    fn ask<H: Host>(&self, rt: &H, trace: &Disciplined<'_>, links: &Links<'_>) -> Result<(), Fail> {
        let events = trace.trace();
        for e in 0..events.len() {
            let (local, pred) = local_and_pred(events, e);
            same(rt, &links.local(e), &local, "the place in the thread");
            same(rt, &links.pred(e), &pred, "the predecessor");
            same(
                rt,
                &links.last_write(e),
                &last_write_of(events, e),
                "the last write",
            );
        }
        for t in 0..events.threads() {
            same(rt, &links.forked_by(t), &fork_of(events, t), "the fork");
        }
        Ok(())
    }
}

#[test]
fn links_of_all_traces(rt: HostRuntime) -> Result<(), Fail> {
    for row in &WORKED {
        ask_of(&rt, row.text, &LinksAreDefined)?;
    }
    Ok(())
}

#[derive(Clone, Copy)]
struct LinksOfUnborn;

impl Asks for LinksOfUnborn {
    fn ask<H: Host>(
        &self,
        rt: &H,
        _trace: &Disciplined<'_>,
        links: &Links<'_>,
    ) -> Result<(), Fail> {
        same(
            rt,
            &links.pred(2),
            &Some(0),
            "the predecessor of the first write",
        );
        same(rt, &links.pred(3), &Some(1), "of the second");
        same(
            rt,
            &links.forked_by(1),
            &Some(0),
            "the fork of the thread without events",
        );
        same(rt, &links.forked_by(0), &None, "no fork");
        Ok(())
    }
}

#[test]
fn links_of_a_thread_without_events(rt: HostRuntime) -> Result<(), Fail> {
    ask_of(&rt, joined_unborn().text, &LinksOfUnborn)
}

/// What the forms say of an event and a thread, one by one and for all threads at once: of all forms the same.
#[derive(Clone, Copy)]
struct FormsAgree;

impl FormsAgree {
    /// Counts that begin with 1 are raised to what the marks say, where that is more.
    fn expect<O: Order>(
        &self,
        rt: &impl Host,
        order: &O,
        marks: &PlainOrder<'_>,
        trace: &Trace,
        what: &str,
    ) -> Result<(), Fail> {
        for e in 0..trace.len() {
            let mut counts = vec![in rt.alloc(); 1; trace.threads() as usize]?;
            order.raise_below(e, &mut counts)?;
            for t in 0..trace.threads() {
                let wanted = marks.below_pred(e, t);
                same(rt, &order.below_pred(e, t), &wanted, what);
                same(rt, &counts[t as usize], &wanted.max(1), what);
            }
        }
        Ok(())
    }
}

impl Asks for FormsAgree {
    fn ask<H: Host>(&self, rt: &H, trace: &Disciplined<'_>, links: &Links<'_>) -> Result<(), Fail> {
        let alloc = rt.alloc();
        let marks: PlainOrder<'_> = plain(alloc, trace, links)?;
        let clocks: FullClocks<'_> = full(alloc, trace, links)?;
        let kept: ClockVersions<'_> = versions(alloc, trace, links)?;
        let mut events = Vec::new(alloc);
        for e in 0..trace.trace().len() {
            events.push(e)?;
        }
        let listed: ListedRows<'_> = at_events(
            alloc,
            Linked::new(trace, links),
            events.as_slice(),
        )?;
        self.expect(rt, &marks, &marks, trace.trace(), "marks")?;
        self.expect(rt, &clocks, &marks, trace.trace(), "a clock for each event")?;
        self.expect(rt, &kept, &marks, trace.trace(), "clocks that are kept")?;
        self.expect(rt, &listed, &marks, trace.trace(), "rows of listed events")
    }
}

#[test]
fn forms_agree_on_all_traces(rt: HostRuntime) -> Result<(), Fail> {
    for row in &WORKED {
        ask_of(&rt, row.text, &FormsAgree)?;
    }
    Ok(())
}

/// Five lines each: a locked section of a thread in which another one writes, and a read after it.
const SECTIONS: [&str; 16] = [
    "T0|acq(l0)\nT5|w(x0)\nT0|r(x1)\nT0|rel(l0)\nT5|r(x1)\n",
    "T1|acq(l1)\nT6|w(x1)\nT1|r(x0)\nT1|rel(l1)\nT6|r(x0)\n",
    "T2|acq(l2)\nT7|w(x2)\nT2|r(x3)\nT2|rel(l2)\nT7|r(x3)\n",
    "T3|acq(l0)\nT4|w(x3)\nT3|r(x2)\nT3|rel(l0)\nT4|r(x2)\n",
    "T4|acq(l1)\nT0|w(x4)\nT4|r(x4)\nT4|rel(l1)\nT0|r(x4)\n",
    "T5|acq(l2)\nT1|w(x0)\nT5|r(x2)\nT5|rel(l2)\nT1|r(x2)\n",
    "T6|acq(l0)\nT2|w(x1)\nT6|r(x3)\nT6|rel(l0)\nT2|r(x3)\n",
    "T7|acq(l1)\nT3|w(x2)\nT7|r(x1)\nT7|rel(l1)\nT3|r(x1)\n",
    "T0|acq(l2)\nT4|w(x3)\nT0|r(x0)\nT0|rel(l2)\nT4|r(x0)\n",
    "T1|acq(l0)\nT7|w(x4)\nT1|r(x1)\nT1|rel(l0)\nT7|r(x1)\n",
    "T2|acq(l1)\nT5|w(x0)\nT2|r(x4)\nT2|rel(l1)\nT5|r(x4)\n",
    "T3|acq(l2)\nT6|w(x1)\nT3|r(x2)\nT3|rel(l2)\nT6|r(x2)\n",
    "T5|acq(l0)\nT2|w(x2)\nT5|r(x0)\nT5|rel(l0)\nT2|r(x0)\n",
    "T6|acq(l1)\nT0|w(x3)\nT6|r(x4)\nT6|rel(l1)\nT0|r(x4)\n",
    "T7|acq(l2)\nT1|w(x4)\nT7|r(x3)\nT7|rel(l2)\nT1|r(x3)\n",
    "T4|acq(l0)\nT3|w(x0)\nT4|r(x0)\nT4|rel(l0)\nT3|r(x0)\n",
];

/// A text of 500 lines of eight threads, three locks and five variables, made from fixed numbers. The
/// first thread forks three others and joins all in the end.
fn long_text(alloc: Global) -> Result<String, NoMemory> {
    let mut text = String::new(alloc);
    text.push_str("T0|fork(T1)\nT0|fork(T2)\nT0|fork(T3)\n")?;
    let mut number = 1u32;
    for _section in 0..98 {
        number = number.wrapping_mul(1_103_515_245).wrapping_add(12_345);
        text.push_str(SECTIONS[(number >> 16) as usize % 16])?;
    }
    text.push_str("T0|join(T1)\nT0|join(T2)\nT0|join(T3)\nT0|join(T4)\n")?;
    text.push_str("T0|join(T5)\nT0|join(T6)\nT0|join(T7)\n")?;
    Ok(text)
}

#[test]
fn forms_agree_on_a_long_trace(rt: HostRuntime) -> Result<(), Fail> {
    let text = long_text(rt.alloc())?;
    ask_of(&rt, text.as_str(), &FormsAgree)
}

/// Events, and how many of threads 0, 1 and so on are below the predecessor of each.
#[derive(Clone, Copy)]
struct Below<'a> {
    rows: &'a [(u32, &'a [u32])],
}

impl Below<'_> {
    fn expect<O: Order>(&self, rt: &impl Host, order: &O) {
        for (e, counts) in self.rows {
            for (t, count) in counts.iter().enumerate() {
                same(rt, &order.below_pred(*e, t as u32), count, "events below");
            }
        }
    }
}

impl Asks for Below<'_> {
    fn ask<H: Host>(&self, rt: &H, trace: &Disciplined<'_>, links: &Links<'_>) -> Result<(), Fail> {
        self.expect(rt, &plain(rt.alloc(), trace, links)?);
        self.expect(rt, &full(rt.alloc(), trace, links)?);
        self.expect(rt, &versions(rt.alloc(), trace, links)?);
        Ok(())
    }
}

/// Events of a trace, and how many of threads 0, 1 and so on are below the predecessor of each.
const COUNTS: [(&str, &[(u32, &[u32])]); 3] = [
    (
        "T1|w(x)\nT2|w(z)\nT2|r(x)\nT2|w(y)\n",
        &[(2, &[0, 1]), (3, &[1, 2])],
    ),
    (
        "T1|acq(l)\nT1|rel(l)\nT2|acq(l)\nT2|w(x)\nT2|rel(l)\nT3|acq(l)\nT3|rel(l)\nT3|w(x)\n",
        &[(3, &[2, 1, 0]), (7, &[2, 3, 2])],
    ),
    (
        "T1|acq(l)\nT1|acq(l)\nT1|w(x)\nT1|rel(l)\nT1|w(y)\nT1|rel(l)\nT2|acq(l)\nT2|w(y)\nT2|rel(l)\nT2|w(x)\n",
        &[(7, &[6, 1]), (9, &[6, 3])],
    ),
];

#[test]
fn counts_that_were_worked_out(rt: HostRuntime) -> Result<(), Fail> {
    let rows: [(u32, &[u32]); 7] = [
        (0, &[0, 0, 0]),
        (1, &[1, 0, 0]),
        (2, &[2, 0, 0]),
        (3, &[0, 0, 0]),
        (4, &[3, 1, 0]),
        (5, &[3, 2, 0]),
        (6, &[0, 0, 0]),
    ];
    ask_of(&rt, passed_on().text, &Below { rows: &rows })?;
    ask_of(
        &rt,
        joined_unborn().text,
        &Below {
            rows: &[(3, &[0, 0, 1])],
        },
    )?;
    for (text, rows) in COUNTS {
        ask_of(&rt, text, &Below { rows })?;
    }
    Ok(())
}

/// The places in each thread at which it may learn of others.
#[derive(Clone, Copy)]
struct Learned<'a> {
    of_threads: &'a [&'a [u32]],
}

impl Asks for Learned<'_> {
    fn ask<H: Host>(&self, rt: &H, trace: &Disciplined<'_>, links: &Links<'_>) -> Result<(), Fail> {
        let kept: ClockVersions<'_> = versions(rt.alloc(), trace, links)?;
        for (t, wanted) in self.of_threads.iter().enumerate() {
            same(rt, &kept.learned(t as u32), wanted, "the places");
        }
        Ok(())
    }
}

#[test]
fn where_a_thread_learns(rt: HostRuntime) -> Result<(), Fail> {
    ask_of(
        &rt,
        passed_on().text,
        &Learned {
            of_threads: &[&[1], &[1, 2], &[1]],
        },
    )?;
    ask_of(
        &rt,
        through_a_read().text,
        &Learned {
            of_threads: &[&[1], &[1]],
        },
    )
}

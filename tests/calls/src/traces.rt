//! Traces whose races, schedules and places were worked out by hand, and their reports, put together line by line.
use crate::asserting::Host;
use shb_discipline::{Disciplined, check};
use shb_io::{NoMemory, Text};
use shb_lines::{Limits, Pair, Parsed, ReadError, parse};
use shb_links::{Links, links_of};
use std::alloc::Global;
use std::test::Fail;

/// A race: its events, and those of its schedule, all counted from 1.
pub type Race<'a> = (u32, u32, &'a [u32]);

/// A place: how many races it has, and its two locations.
pub type Place<'a> = (u64, &'a str, &'a str);

/// A trace, its events, threads, locks and variables, and what a report of it lists.
#[derive(Clone, Copy)]
pub struct Worked<'a> {
    pub text: &'a str,
    pub counts: (u64, u64, u64, u64),
    pub races: &'a [Race<'a>],
    pub places: &'a [Place<'a>],
}

const LOCATED: Worked<'static> = Worked {
    text: "T1|w(y)|1\nT2|r(y)|2\n",
    counts: (2, 2, 0, 1),
    races: &[(1, 2, &[])],
    places: &[(1, "1", "2")],
};

const THROUGH_A_READ: Worked<'static> = Worked {
    text: "T1|w(x)\nT1|w(y)\nT2|r(y)\nT2|w(x)\n",
    counts: (4, 2, 0, 2),
    races: &[(2, 3, &[1])],
    places: &[(1, "", "")],
};

const CROSSED: Worked<'static> = Worked {
    text: "T1|w(x)\nT1|w(y)\nT2|w(y)\nT2|w(x)\n",
    counts: (4, 2, 0, 2),
    races: &[(1, 4, &[3]), (2, 3, &[1])],
    places: &[(2, "", "")],
};

const PASSED_ON: Worked<'static> = Worked {
    text: "T1|acq(l)\nT1|w(x)\nT1|rel(l)\nT2|acq(l)\nT2|r(x)\nT2|rel(l)\nT3|w(x)\n",
    counts: (7, 3, 1, 1),
    races: &[(2, 7, &[1]), (5, 7, &[1, 2, 3, 4])],
    places: &[(2, "", "")],
};

const JOINED_UNBORN: Worked<'static> = Worked {
    text: "T1|fork(T3)\nT2|join(T3)\nT1|w(x)\nT2|w(x)\n",
    counts: (4, 3, 0, 1),
    races: &[(3, 4, &[1, 2])],
    places: &[(1, "", "")],
};

const READ_BETWEEN: Worked<'static> = Worked {
    text: "T1|w(x)\nT2|r(x)\nT2|w(y)\nT3|w(y)\n",
    counts: (4, 3, 0, 2),
    races: &[(1, 2, &[]), (3, 4, &[1, 2])],
    places: &[(2, "", "")],
};

const THREE_WRITERS: Worked<'static> = Worked {
    text: "T1|w(x)\nT2|w(x)\nT3|r(x)\n",
    counts: (3, 3, 0, 1),
    races: &[(1, 2, &[]), (1, 3, &[]), (2, 3, &[])],
    places: &[(3, "", "")],
};

const FORKED_BEFORE: Worked<'static> = Worked {
    text: "T1|fork(T2)\nT1|w(x)\nT2|w(x)\n",
    counts: (3, 2, 0, 1),
    races: &[(2, 3, &[1])],
    places: &[(1, "", "")],
};

const JOINED: Worked<'static> = Worked {
    text: "T1|fork(T2)\nT2|w(x)\nT1|join(T2)\nT1|r(x)\n",
    counts: (4, 2, 0, 1),
    races: &[],
    places: &[],
};

/// All of them. Some are asked for alone by the functions below.
pub const WORKED: [Worked<'static>; 22] = [
    LOCATED,
    THROUGH_A_READ,
    CROSSED,
    PASSED_ON,
    JOINED_UNBORN,
    READ_BETWEEN,
    THREE_WRITERS,
    FORKED_BEFORE,
    JOINED,
    Worked {
        text: "T1|w(x)\nT2|r(x)\nT2|r(x)\n",
        counts: (3, 2, 0, 1),
        races: &[(1, 2, &[])],
        places: &[(1, "", "")],
    },
    Worked {
        text: "T1|acq(l)\nT1|w(x)\nT1|rel(l)\nT2|w(x)\n",
        counts: (4, 2, 1, 1),
        races: &[(2, 4, &[1])],
        places: &[(1, "", "")],
    },
    Worked {
        text: "T1|w(x)\nT1|fork(T2)\nT2|w(x)\n",
        counts: (3, 2, 0, 1),
        races: &[],
        places: &[],
    },
    Worked {
        text: "T1|w(x)\nT1|acq(l)\nT1|rel(l)\nT2|acq(l)\nT2|rel(l)\nT2|w(x)\n",
        counts: (6, 2, 1, 1),
        races: &[],
        places: &[],
    },
    Worked {
        text: "",
        counts: (0, 0, 0, 0),
        races: &[],
        places: &[],
    },
    Worked {
        text: "T1|r(f(a))\n",
        counts: (1, 1, 0, 1),
        races: &[],
        places: &[],
    },
    Worked {
        text: "T1|acq(l)\nT1|acq(l)\n",
        counts: (2, 1, 1, 0),
        races: &[],
        places: &[],
    },
    Worked {
        text: "T1|acq(l)\nT1|rel(l)\nT2|acq(l)\nT2|w(x)\nT2|rel(l)\nT3|acq(l)\nT3|rel(l)\nT3|w(x)\n",
        counts: (8, 3, 1, 1),
        races: &[],
        places: &[],
    },
    Worked {
        text: "T1|w(x)\nT2|w(z)\nT2|r(x)\nT2|w(y)\n",
        counts: (4, 2, 0, 3),
        races: &[(1, 3, &[2])],
        places: &[(1, "", "")],
    },
    Worked {
        text: "T1|acq(l)\nT1|acq(l)\nT1|w(x)\nT1|rel(l)\nT1|w(y)\nT1|rel(l)\nT2|acq(l)\nT2|w(y)\nT2|rel(l)\nT2|w(x)\n",
        counts: (10, 2, 1, 2),
        races: &[],
        places: &[],
    },
    Worked {
        text: "T1|acq(l)\nT1|acq(l)\nT1|w(x)\nT1|rel(l)\nT1|rel(l)\nT2|acq(l)\nT2|rel(l)\nT3|w(x)\n",
        counts: (8, 3, 1, 1),
        races: &[(3, 8, &[1, 2])],
        places: &[(1, "", "")],
    },
    Worked {
        text: "T1|begin\nT1|w(x)\nT1|end\nT2|begin(m)\nT2|w(x)\nT2|end()\n",
        counts: (6, 2, 0, 1),
        races: &[(2, 5, &[1, 4])],
        places: &[(1, "", "")],
    },
    Worked {
        text: "T1|w(x)|a\nT2|w(x)|a\nT3|w(x)|b\nT4|w(x)|b\n",
        counts: (4, 4, 0, 1),
        races: &[
            (1, 2, &[]),
            (1, 3, &[]),
            (2, 3, &[]),
            (1, 4, &[]),
            (2, 4, &[]),
            (3, 4, &[]),
        ],
        places: &[(1, "a", "a"), (4, "a", "b"), (1, "b", "b")],
    },
];

pub fn located() -> Worked<'static> {
    LOCATED
}

pub fn through_a_read() -> Worked<'static> {
    THROUGH_A_READ
}

pub fn crossed() -> Worked<'static> {
    CROSSED
}

pub fn passed_on() -> Worked<'static> {
    PASSED_ON
}

pub fn joined_unborn() -> Worked<'static> {
    JOINED_UNBORN
}

pub fn read_between() -> Worked<'static> {
    READ_BETWEEN
}

pub fn three_writers() -> Worked<'static> {
    THREE_WRITERS
}

pub fn forked_before() -> Worked<'static> {
    FORKED_BEFORE
}

pub fn joined() -> Worked<'static> {
    JOINED
}

/// How a report is put together.
#[derive(Clone, Copy)]
pub struct Form {
    pub version: u32,
    pub schedules: bool,
}

/// What `run` writes with schedules.
pub const WHOLE: Form = Form {
    version: 2,
    schedules: true,
};

/// What it writes without.
pub const LISTED: Form = Form {
    version: 2,
    schedules: false,
};

/// The older form, without places.
pub const OLDER: Form = Form {
    version: 1,
    schedules: true,
};

/// The line of this number of a text, counted from 1.
pub fn line_of(text: &str, number: u32) -> &str {
    let mut left = number;
    for line in text.split('\n') {
        left -= 1;
        if left == 0 {
            return line;
        }
    }
    ""
}

/// The report of a trace, line by line.
pub fn report_of(alloc: Global, row: &Worked<'_>, form: Form) -> Result<String, NoMemory> {
    let (events, threads, locks, variables) = row.counts;
    let version = form.version;
    let count = row.races.len();
    let mut out = format!(in alloc;
        "shb-report {version}\nevents {events} threads {threads} locks {locks} variables {variables}\nraces {count}\n"
    )?;
    if form.version == 2 {
        push_places(alloc, &mut out, row)?;
    }
    for (k, race) in row.races.iter().enumerate() {
        let (first, second, schedule) = *race;
        let (one, other) = (line_of(row.text, first), line_of(row.text, second));
        let number = k + 1;
        out.push_str(format!(in alloc;
            "race {number}: {first} {second}\nfirst {one}\nsecond {other}\n"
        )?.as_str())?;
        if form.schedules {
            push_schedule(alloc, &mut out, schedule)?;
        }
    }
    out.push_str("end\n")?;
    Ok(out)
}

fn push_places(alloc: Global, out: &mut String, row: &Worked<'_>) -> Result<(), NoMemory> {
    let count = row.places.len();
    out.push_str(format!(in alloc; "places {count}\n")?.as_str())?;
    for (q, place) in row.places.iter().enumerate() {
        let (races, first, second) = *place;
        let number = q + 1;
        out.push_str(format!(in alloc;
            "place {number}: {races}\nat {first}\nand {second}\n"
        )?.as_str())?;
    }
    Ok(())
}

fn push_schedule(alloc: Global, out: &mut String, schedule: &[u32]) -> Result<(), NoMemory> {
    let length = schedule.len();
    out.push_str(format!(in alloc; "schedule {length}:")?.as_str())?;
    for event in schedule {
        out.push_str(format!(in alloc; " {event}")?.as_str())?;
    }
    out.push('\n')?;
    Ok(())
}

/// The events of a list, counted from 0.
pub fn from_zero(alloc: Global, events: &[u32]) -> Result<Vec<u32>, NoMemory> {
    let mut out = Vec::new(alloc);
    for event in events {
        out.push(*event - 1)?;
    }
    Ok(out)
}

/// The pairs of a row's races, counted from 0.
pub fn pairs_of(alloc: Global, row: &Worked<'_>) -> Result<Vec<Pair>, NoMemory> {
    let mut out = Vec::new(alloc);
    for race in row.races {
        out.push(Pair {
            first: race.0 - 1,
            second: race.1 - 1,
        })?;
    }
    Ok(out)
}

/// A text of so many lines, each of a thread of its own: `Tk` and the operation, k from 1.
pub fn line_of_each(alloc: Global, threads: u32, operation: &str) -> Result<String, NoMemory> {
    let mut text = String::new(alloc);
    for t in 1..=threads {
        text.push_str(format!(in alloc; "T{t}|{operation}\n")?.as_str())?;
    }
    Ok(text)
}

/// A text, read whole under the usual limits.
pub fn parsed(rt: &impl Host, text: &str) -> Result<Parsed, ReadError> {
    let mut source = Text::new(text.as_bytes(), 5, None);
    parse(rt, rt.alloc(), &mut source, &Limits::standard())
}

/// What a test asks of a trace that meets the discipline, and of its links.
pub trait Asks {
    fn ask<H: Host>(&self, rt: &H, trace: &Disciplined<'_>, links: &Links<'_>) -> Result<(), Fail>;
}

/// Asks it of the trace of a text.
pub fn ask_of<A: Asks>(rt: &impl Host, text: &str, asks: &A) -> Result<(), Fail> {
    let parsed = parsed(rt, text)?;
    let trace = check(rt.alloc(), &parsed.trace)?;
    let links = links_of(rt.alloc(), &trace)?;
    asks.ask(rt, &trace, &links)
}

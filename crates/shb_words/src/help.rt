//! The texts that stand under the options in the help.

/// Under the list of commands: what to begin with, and the statuses.
pub const ABOUT_THE_PROGRAM: &str =
    "No arguments mean 'shb races --list'. Begin with 'shb places --list', which
reads a trace of any length. Without --list each race has a schedule.

  $ printf 'T1|w(y)|1\\nT2|r(y)|2\\n' | shb places --list

'shb help races' explains traces and reports, and 'shb help check' what a good
report means.

Exit status: 0 done, 2 trace refused, 3 wrong command line, 4 a file, a device
or the memory failed, 5 report rejected
";

/// Under the options of `races`: what a trace and a report look like, and what they cost.
pub const ABOUT_TRACES: &str = "The trace:
  One event per line, in the order in which they happened:
  THREAD|OPERATION|LOCATION. The location may be left out. Names are of one byte
  or more, any but '|'. Empty lines are skipped. The operations:

    r(X)     w(X)     reads or writes the variable X
    acq(L)   rel(L)   acquires or releases the lock L; its holder may acquire it
                      again
    fork(T)  join(T)  starts the thread T, or waits for its end
    begin    end      mark a block; they order nothing

The report:
  How many events, threads, locks and variables the trace has, and how many
  races. Then the places: each pair of locations that has races, and how many.
  Then for each race the numbers of its two events, counted from 1, their lines,
  and a schedule: the events to run first, in this order, so that both accesses
  come next. The last line is 'end'.

  A race is two accesses of one variable by different threads, at least one a
  write, such that the earlier isn't ordered before the event that precedes the
  later in its thread (its fork, for a thread's first event). Ordered are the
  events of a thread, a release before a later acquire of the lock, a fork
  before the events of the forked thread, these before a join of it, and the
  last write before each read that sees it.

Costs:
  A schedule may be as long as the trace, so a full report may take as many
  numbers as races times events. --list leaves the schedules out. A variable
  that two threads write N times without a lock has N times N races: 'shb
  places' lists one of each place, and is for the first look. --workers changes
  the time alone, never the report: workers share the search for races, their
  schedules and their lines; reading the trace and writing aren't shared.

Exit status:
  0  the report was written, or the help that was asked for
  2  the trace is refused; 'line N: REASON' is on standard error
  3  wrong command line
  4  a file, a device or the memory failed

Example:
  $ printf 'T1|w(y)|1\\nT2|r(y)|2\\n' | shb races
  shb-report 2
  events 2 threads 2 locks 0 variables 1
  races 1
  places 1
  place 1: 1
  at 1
  and 2
  race 1: 1 2
  first T1|w(y)|1
  second T2|r(y)|2
  schedule 0:
  end
";

/// Under the options of `places`: which races it lists, and what that costs.
pub const ABOUT_PLACES: &str =
    "A place is the locations of two accesses, in their order. One race is listed per
place that has one anywhere in the trace: the one whose second event comes
first, and if this event has several there, the one whose first event comes
last. With --variables one race of each place and variable is listed, in the
same way. Each race that there is has the place of one that is listed. 'shb
check' judges such a report as any other.

The report:
  The trace and the form of the report are those of 'shb help races'. Races are
  in the order of their second events, then of their first ones, and places in
  the order of their first race. With --variables the count of a place is that
  of the variables that race there.

With --list the trace is read once, from front to end, and neither its text nor
its events are kept: it may come from a pipe, and may have 4294967294 events,
65535 threads, lines of 4096 bytes and any number of bytes. Nothing is written
before it was read to its end and judged.

Costs:
  Time and memory grow with the trace and with the places, not with the races.
  With --list memory grows with the names of the trace, with what its threads
  know of each other and with the races that are listed, not with its length. A
  place where each element of an array races has as many with --variables.
  'shb races --list' prints how many races a place has.

Exit status:
  0  the report was written, or the help that was asked for
  2  the trace is refused; 'line N: REASON' is on standard error
  3  wrong command line
  4  a file, a device or the memory failed

Example:
  $ printf 'T1|w(y)|1\\nT2|r(y)|2\\nT3|r(y)|2\\n' | shb places
  shb-report 2
  events 3 threads 3 locks 0 variables 1
  races 1
  places 1
  place 1: 1
  at 1
  and 2
  race 1: 1 2
  first T1|w(y)|1
  second T2|r(y)|2
  schedule 0:
  end
";

/// Under the options of `check`: what it judges, and what it doesn't.
pub const ABOUT_CHECKS: &str =
    "One line is written to standard output, the first of these that applies:

  bad line N    no report begins with the first N lines, or line N is missing
  bad counts    the numbers of events, threads, locks and variables aren't
                those of the trace
  bad race K    race K isn't shown to be a race; all before it are
  bad places    the places aren't those of the listed races
  ok R          the report is good; it lists R races

Each race that a good report lists is a race of the trace: its two events
conflict, their lines are those of the trace, and its schedule keeps the order
of each thread, forks and joins, the locks and what each read saw, and brings
both accesses next. It need not be the schedule that 'shb races' writes, and any
tool may have written the report.

Not judged: whether races of the trace are left out, the order of those that are
listed, and whether one is listed twice. A report made with --list has no
schedules to judge: it is a 'bad line', unless it lists no race. So is a report
of more than 1073741824 bytes, which standard error reports: check the report of
'shb places' instead.

Exit status:
  0  the report is good
  2  the trace is refused, whatever the report is; 'line N: REASON' is on
     standard error
  3  wrong command line
  4  a file, a device or the memory failed
  5  the report is rejected

Example:
  $ shb races t.std > t.report
  $ shb check t.std < t.report
";

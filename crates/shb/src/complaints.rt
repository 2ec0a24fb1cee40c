//! What the program says on standard error, and the statuses that no run and no check gives. A failure of standard
//! error is passed over, one of standard output after a run isn't.
ghost use Rattle.std.specs.Prelude.{◌≡◌, Ok, Err, IfOk, IfErr, ◌⊎◌};

use shb_io::{Keys, ToWrite};
use std::io::{Error, Read, Write};
use std::random::RandomSource;

/// The status of a wrong command line.
pub(crate) const WORDS_REFUSED: u8 = 3;

/// The status where a device or the memory failed.
pub(crate) const FAILED: u8 = 4;

/// What standard input is called.
pub(crate) const STANDARD_INPUT: &str = "standard input";

/// What standard output is called.
pub(crate) const STANDARD_OUTPUT: &str = "standard output";

/// Says on standard error why the program ends, and gives its status.
pub(crate) fn complain<R: Eprint>(rt: &R, reason: &str, status: u8) -> u8
    ensures { result ≡ status }
{
    let _ = rt.eprintln(reason);
    status
}

/// Names on standard error what failed, and says why. What doesn't print in the name is escaped.
fn tell_reason<R: Eprint>(rt: &R, name: &str, reason: Error) {
    let name = name.escape_debug();
    let _ = eprintln!(rt; "shb: {name}: {reason}");
}

/// Says on standard error what can't be done, of which file and why, and gives the program's status.
pub(crate) fn cannot<R: Eprint>(rt: &R, words: &str, name: &str, reason: Error) -> u8
    ensures { result ≡ FAILED }
{
    let status = complain(rt, words, FAILED);
    tell_reason(rt, name, reason);
    if name == "-" {
        let _ = rt.eprintln("standard input has no name: leave TRACE out to read a trace from it");
    }
    status
}

/// Says on standard error if the system refuses random numbers: a run that gets none ends like one that gets no memory.
pub(crate) fn tell_refused_random<R: Eprint + RandomSource>(rt: &R) {
    if let Err(_) = Keys::random(rt) {
        let _ = rt.eprintln("the system refuses random numbers (getrandom)");
    }
}

/// A reader or a writer that keeps why its last call failed, if it did, and else is the one inside.
#[derive(Drop)]
pub(crate) struct Reasoned<D> {
    device: D,
    reason: Option<Error>,
}

impl<D> Reasoned<D> {
    /// The same reader or writer. No call has failed.
    pub(crate) fn new(device: D) -> Reasoned<D> {
        Reasoned {
            device,
            reason: None,
        }
    }

    /// Names on standard error what was read or written, and says why the last call failed, if it did.
    pub(crate) fn tell_failure<R: Eprint>(&self, rt: &R, name: &str) {
        if let Some(reason) = self.reason {
            tell_reason(rt, name, reason);
        }
    }
}

impl<D: Read> Read for Reasoned<D> {
    ghost remaining = { λ s. D.remaining s.device };

    fn read(&mut self, buf: &mut [u8]) -> std::io::Result<usize> {
        let answer = self.device.read(buf);
        self.reason = answer.err();
        answer
    }
}

impl<D: Write> Write for Reasoned<D> {
    ghost contents = { λ s. D.contents s.device };

    fn write(&mut self, buf: &[u8]) -> std::io::Result<usize> {
        let answer = self.device.write(buf);
        self.reason = answer.err();
        answer
    }

    fn flush(&mut self) -> std::io::Result<()> {
        let answer = self.device.flush();
        self.reason = answer.err();
        answer
    }
}

/// Flushes what a run or a check has written, where it went well. A flush that fails is a sink that failed,
/// with the error that is given for that.
pub(crate) fn flushed<T: Drop, E: Drop, W: Write + Drop>(
    answer: Result<T, E>,
    sink: ToWrite<W>,
    failed: E,
) -> Result<T, E>
    ensures well { IfOk result (λ value. answer ≡ Ok value) }
    ensures bad { IfErr result (λ error. (answer ≡ Err error) ⊎ (error ≡ failed)) }
{
    match answer {
        Ok(value) => match sink.finish() {
            Ok(()) => Ok(value),
            Err(_) => Err(failed),
        },
        Err(error) => Err(error),
    }
}

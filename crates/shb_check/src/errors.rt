//! Why a run gives no report, and a check no verdict; what a program says of it, and the status that it ends with.
ghost use Rattle.std.specs.Prelude.{◌≡◌, IfOk, string_bytes};
ghost use Rattle.shb_check.specs.Errors.{check_status_of, exit_status_of, fault_line_of};

use shb_discipline::CheckError;
use shb_io::NoMemory;
use shb_judging::Verdict;
use shb_lines::{Fault, ReadError};
use std::alloc::Global;
use thiserror::Error;

/// Why a run gave no report. It shows itself as `fault_line` words it.
#[derive(Debug, Drop, Error)]
pub enum RunError {
    /// The trace is refused: this is its first fault, and its line, from 1. Nothing was written.
    #[error("line {line}: {}", .fault.message())]
    Trace { line: u32, fault: Fault },
    /// The source failed. Nothing was written.
    #[error("cannot read")]
    Source,
    /// The sink failed. What was written is less than the report, the front of it.
    #[error("cannot write")]
    Sink,
    /// Memory was refused. What was written is less than the report, the front of it, perhaps nothing.
    #[error("out of memory")]
    Memory(NoMemory),
}

impl From<ReadError> for RunError {
    ghost use Rattle.std.specs.Prelude.{◌≡◌};
    ghost use Rattle.shb_check.specs.Errors.{error_of_reading};

    ghost from_gives = { λ error e. e ≡ error_of_reading error };

    fn from(error: ReadError) -> RunError {
        match error {
            ReadError::Source => RunError::Source,
            ReadError::Memory(refused) => RunError::Memory(refused),
        }
    }
}

impl From<CheckError> for RunError {
    ghost use Rattle.std.specs.Prelude.{◌≡◌};
    ghost use Rattle.shb_check.specs.Errors.{error_of_checking};

    ghost from_gives = { λ error e. e ≡ error_of_checking error };

    fn from(error: CheckError) -> RunError {
        match error {
            CheckError::Undisciplined { line, fault } => RunError::Trace { line, fault },
            CheckError::Memory(refused) => RunError::Memory(refused),
        }
    }
}

/// The status with which a program ends: 2 for a refused trace, 4 for a device or the memory.
pub fn exit_status(error: &RunError) -> u8
    ensures { result ≡ exit_status_of error.now }
{
    match error {
        RunError::Trace { .. } => 2,
        RunError::Source | RunError::Sink | RunError::Memory(_) => 4,
    }
}

/// The status with which a program ends that checked a report: 0 for a good one, 5 for a rejected
/// one, and else that of the error.
pub fn status_of_check(answer: &Result<Verdict, RunError>) -> u8
    ensures { result ≡ check_status_of answer.now }
{
    match answer {
        Ok(Verdict::Good { .. }) => 0,
        Ok(_) => 5,
        Err(error) => exit_status(error),
    }
}

/// The line that a program prints for an error, without its end: `line N: MESSAGE` for a refused
/// trace.
pub fn fault_line(alloc: Global, error: &RunError) -> Result<String, NoMemory>
    ensures { IfOk result (λ line. string_bytes line ≡ fault_line_of error.now) }
{
    let line = match error {
        RunError::Trace { line, fault } => {
            let message = fault.message();
            format!(in alloc; "line {line}: {message}")?
        }
        RunError::Source => String::from_str(alloc, "cannot read")?,
        RunError::Sink => String::from_str(alloc, "cannot write")?,
        RunError::Memory(_) => String::from_str(alloc, "out of memory")?,
    };
    Ok(line)
}

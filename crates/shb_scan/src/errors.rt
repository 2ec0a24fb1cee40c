//! Why a scan is not written, what a program says of it, and the status that it ends with.
ghost use Rattle.std.specs.Prelude.{◌≡◌, IfOk, string_bytes};
ghost use Rattle.shb_scan.specs.Errors.{scan_line_of, scan_message_of, scan_status_of};

use shb_io::NoMemory;
use shb_lines::{Fault, ReadError};
use std::alloc::Global;

/// Why a scan is not written, or not whole.
#[derive(Clone, Copy, Debug, PartialEq, Eq)]
pub enum ScanError {
    /// The trace is refused: this is its first fault, and its line, from 1. Nothing was written.
    Trace { line: u64, fault: Fault },
    /// The text has 18,446,744,073,709,551,615 lines or more. Nothing was written.
    TooManyLines,
    /// The source failed. Nothing was written.
    Source,
    /// The sink failed. What was written is less than the scan, the front of it.
    Sink,
    /// Memory was refused. Nothing was written.
    Memory(NoMemory),
}

impl From<ReadError> for ScanError {
    ghost use Rattle.std.specs.Prelude.{◌≡◌};
    ghost use Rattle.shb_scan.specs.Errors.{error_of_reading};

    ghost from_gives = { λ error e. e ≡ error_of_reading error };

    fn from(error: ReadError) -> ScanError {
        match error {
            ReadError::Source => ScanError::Source,
            ReadError::Memory(refused) => ScanError::Memory(refused),
        }
    }
}

impl From<NoMemory> for ScanError {
    ghost use Rattle.std.specs.Prelude.{◌≡◌};
    ghost use Rattle.shb_scan.specs.declared.errors.ScanError.TheVariants.{Memory};

    ghost from_gives = { λ refused e. e ≡ Memory refused };

    fn from(refused: NoMemory) -> ScanError {
        ScanError::Memory(refused)
    }
}

/// What the program says of a fault of a text that is scanned. It names the limits of a scan.
pub fn scan_message(fault: Fault) -> &'static str
    ensures { result.now ≡ scan_message_of fault }
{
    match fault {
        Fault::TooManyEvents => "there are more than 4294967294 events",
        Fault::TooManyThreads => "there are more than 65535 threads",
        fault => fault.message(),
    }
}

/// The status with which a program ends that scanned a trace: 0 where the scan was written, 2 for a refused
/// trace, 4 for a device or the memory.
pub fn status_of_scan(answer: &Result<(), ScanError>) -> u8
    ensures { result ≡ scan_status_of answer.now }
{
    match answer {
        Ok(()) => 0,
        Err(ScanError::Trace { .. } | ScanError::TooManyLines) => 2,
        Err(ScanError::Source | ScanError::Sink | ScanError::Memory(_)) => 4,
    }
}

/// The line that a program prints for an error, without its end: `line N: MESSAGE` for a refused trace.
pub fn scan_line(alloc: Global, error: &ScanError) -> Result<String, NoMemory>
    ensures { IfOk result (λ line. string_bytes line ≡ scan_line_of error.now) }
{
    let line = match error {
        ScanError::Trace { line, fault } => {
            let message = scan_message(*fault);
            format!(in alloc; "line {line}: {message}")?
        }
        ScanError::TooManyLines => {
            String::from_str(alloc, "there are more than 18446744073709551614 lines")?
        }
        ScanError::Source => String::from_str(alloc, "cannot read")?,
        ScanError::Sink => String::from_str(alloc, "cannot write")?,
        ScanError::Memory(_) => String::from_str(alloc, "out of memory")?,
    };
    Ok(line)
}

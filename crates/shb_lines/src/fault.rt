//! The faults of a text: of its lines, and of the discipline of their events.
ghost use Rattle.std.specs.Prelude.{◌≡◌};
ghost use Rattle.shb_lines.specs.text.Faults.{number_of};
ghost use Rattle.shb_lines.specs.text.Messages.{message_of};

/// What is wrong with a line: with its bytes, which `parse` answers, or with its event after the
/// events before it, which the discipline of locks, forks and joins answers. They are listed by their
/// numbers: of several faults of one line the first in this list is answered. The faults are this
/// project's own.
#[derive(Clone, Copy, Debug, PartialEq, Eq)]
pub enum Fault {
    /// The byte after the limit of the text belongs to this line.
    TextTooLong,
    /// The line has more bytes than its limit before its line feed, a carriage return counted.
    LineTooLong,
    /// The line has no `|`.
    MissingField,
    /// The first field has no byte.
    EmptyThread,
    /// The word of the operation is not known.
    UnknownOperation,
    /// What follows the word is not a name in parentheses, or of a mark not a part in parentheses.
    BadOperand,
    /// The line's event would be one more than the limit.
    TooManyEvents,
    /// With the line's names there would be more threads than the limit.
    TooManyThreads,
    /// The thread was joined before.
    AfterJoin,
    /// An acquire of a lock that another thread holds.
    LockHeld,
    /// A release of a lock that the thread does not hold.
    NotHeld,
    /// A fork of the thread itself.
    ForkSelf,
    /// A fork of a thread that has an event already.
    ForkStarted,
    /// A fork of a thread that was forked before.
    ForkTwice,
    /// A fork of a thread that was joined before.
    ForkJoined,
    /// A join of the thread itself.
    JoinSelf,
}

impl Fault {
    /// Its number, 1 to 17. Of several faults of a line the one with the lowest number is answered.
    /// No fault has the number 11.
    pub fn number(self) -> u8
        ensures { result ≡ number_of self }
    {
        match self {
            Fault::TextTooLong => 1,
            Fault::LineTooLong => 2,
            Fault::MissingField => 3,
            Fault::EmptyThread => 4,
            Fault::UnknownOperation => 5,
            Fault::BadOperand => 6,
            Fault::TooManyEvents => 7,
            Fault::TooManyThreads => 8,
            Fault::AfterJoin => 9,
            Fault::LockHeld => 10,
            Fault::NotHeld => 12,
            Fault::ForkSelf => 13,
            Fault::ForkStarted => 14,
            Fault::ForkTwice => 15,
            Fault::ForkJoined => 16,
            Fault::JoinSelf => 17,
        }
    }

    /// What the program says of it. It names the limits of the program.
    pub fn message(self) -> &'static str
        ensures { result.now ≡ message_of self }
    {
        match self {
            Fault::TextTooLong => "the text is longer than 1073741824 bytes",
            Fault::LineTooLong => "the line is longer than 4096 bytes",
            Fault::MissingField => "the line has no operation field",
            Fault::EmptyThread => "the thread name is empty",
            Fault::UnknownOperation => "the operation is not known",
            Fault::BadOperand => "the operand is not a name in parentheses",
            Fault::TooManyEvents => "there are more than 4194304 events",
            Fault::TooManyThreads => "there are more than 1024 threads",
            Fault::AfterJoin => "the thread was joined before",
            Fault::LockHeld => "the lock is held by another thread",
            Fault::NotHeld => "the lock is not held by this thread",
            Fault::ForkSelf => "a thread cannot fork itself",
            Fault::ForkStarted => "the forked thread has started already",
            Fault::ForkTwice => "the thread was forked before",
            Fault::ForkJoined => "the forked thread was joined before",
            Fault::JoinSelf => "a thread cannot join itself",
        }
    }
}

/// A fault of a line.
#[derive(Clone, Copy, Debug, PartialEq, Eq)]
pub struct LineFault {
    /// The number of the line, from 1. Empty lines count.
    pub line: u32,
    /// The fault of lowest number that the line has.
    pub fault: Fault,
}

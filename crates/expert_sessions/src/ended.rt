//! How a session ended.

/// Why a session served no further line.
#[derive(Clone, Copy, Debug, PartialEq, Eq)]
pub enum Ended {
    /// The line `quit` was read and answered.
    Quit,
    /// The input ended, and each whole line was served.
    EndOfInput,
    /// A read failed.
    ReadFault,
    /// A write failed.
    WriteFault,
    /// More bytes came without a line feed than a line may have.
    LongLine,
    /// The last line that the session may have was served.
    Limit,
    /// A line asked for an event, or the session for its last leave, and the expert had no turn left.
    Spent,
    /// Memory ran out for the buffer of lines or for the last leave.
    Memory,
}

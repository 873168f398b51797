//! Why a seat ended.

/// Why a seat ended.
#[derive(Clone, Copy, PartialEq, Eq)]
pub enum SeatEnd {
    /// No question is open.
    Done,
    /// The pass has made all its turns.
    Spent,
    /// Memory ran out in a turn, or in an answer for which a turn was left.
    Memory,
}

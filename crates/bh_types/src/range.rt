/// The bytes of an object to return, by their positions from 0.
#[derive(Clone, Copy, PartialEq, Eq)]
pub enum RangePlan {
    /// All bytes.
    Whole,
    /// The bytes from the first to the last position, both included.
    Part { first: u64, last: u64 },
}

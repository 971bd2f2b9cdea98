// Why a step can't be put after a chain.

/// Why a step can't be put after a chain's last one.
#[derive(Clone, Copy, Debug, PartialEq, Eq)]
pub enum PushFault {
    /// The step doesn't take apart the chain's last set, colours and names included.
    NotNext,
    /// It does, and 32 steps are held.
    TooMany,
    /// Out of memory.
    OutOfMemory,
}

/// Why no offer was made.
#[derive(Clone, Copy, Debug, PartialEq, Eq)]
pub enum OfferFault {
    /// At this place the answer is missing, is not of the question there, or is one too many.
    WrongQuestion { place: u32 },
    /// Out of memory.
    NoMemory,
}

/// Why a turn did not take an offer.
#[derive(Clone, Copy, Debug, PartialEq, Eq)]
pub enum TurnFault {
    /// The offer is of another state than the one that is wanted, with so many moves.
    WrongState { moves: u32 },
    /// Out of memory.
    NoMemory,
}

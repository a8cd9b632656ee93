// Room to work in, kept from one member to the next.
use crate::seen::SeenCovers;
use cert_inference::PairRoom;
use std::alloc::Global;

/// Room for a pair of members, and for the places of those that may meet one member.
#[derive(Drop)]
pub struct RowRoom {
    pub(crate) pair: PairRoom,
    pub(crate) partners: Vec<usize>,
}

impl RowRoom {
    /// Empty; takes no memory.
    pub fn new(alloc: Global) -> RowRoom {
        RowRoom {
            pair: PairRoom::new(alloc),
            partners: Vec::new(alloc),
        }
    }
}

/// Room for a pair of members, and the covers that may serve again.
#[derive(Drop)]
pub struct CoverRoom {
    pub(crate) pair: PairRoom,
    pub(crate) seen: SeenCovers,
}

impl CoverRoom {
    /// Empty; takes no memory.
    pub fn new(alloc: Global) -> CoverRoom {
        CoverRoom {
            pair: PairRoom::new(alloc),
            seen: SeenCovers::new(alloc),
        }
    }
}

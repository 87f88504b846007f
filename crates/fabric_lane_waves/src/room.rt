//! Rooms for bits, which serve for all blocks, one after the other.

/// Rooms for words, each with a bit for each LID of a block.
#[derive(Drop)]
pub struct Rooms {
    /// For how many levels there is room: those below this number.
    pub top: usize,
    /// Of each end port the LIDs that it owns.
    pub owned: Vec<u64>,
    /// Of each gate and level the LIDs to which end ports of the gate send with the level.
    pub sent: Vec<u64>,
    /// Of each departure the LIDs to which routes were seen to depart there ..
    pub seen: Vec<u64>,
    /// .. and those for which the step from there was taken.
    pub done: Vec<u64>,
}

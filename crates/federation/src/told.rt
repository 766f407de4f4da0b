// What accepted calls tell, where it is more than one number.
use arrayvec::ArrayVec;

// What a resume tells: the place of each cluster, 0 where it stays, and the ids of the messages that go again.
#[derive(Drop)]
pub struct Resumed {
    pub places: ArrayVec<u32, 8>,
    pub ids: ArrayVec<u32, 128>,
}

// What a collect tells: the bound of each cluster, and how many checkpoints and messages are gone.
#[derive(Drop)]
pub struct Collected {
    pub bounds: ArrayVec<u32, 8>,
    pub checkpoints: u8,
    pub messages: u8,
}

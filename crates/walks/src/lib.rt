// The three walks that act, by value: slots leave a pair for the free queue's end, slots of the free queue's front join a pair, packets go out. One step of
// each, on the slot that a card lends; what is written beside it is numbers and bytes alone.
#![tactic(auto)]

mod acting;
mod emission;

pub use acting::{complete, join_slot, join_step, leave_step, move_step, put_if, with_link};
pub use emission::{RECORD_BYTES, emit_record, emit_step};
use rules::{Post, Settings, Standing};

// Slots on their way from the front of one queue to the end of another: how many are left, the next of them, and the first and last of the queue they join.
#[derive(Clone, Copy, Debug, PartialEq, Eq)]
pub struct Moving {
    pub left: u32,
    pub at: u32,
    pub first: u32,
    pub last: u32,
}

// Slots that leave a pair: how many of those left are released (the others are flushed), and how many messages were completed.
#[derive(Clone, Copy, Debug, PartialEq, Eq)]
pub struct Leaving {
    pub moving: Moving,
    pub released: u32,
    pub messages: u32,
}

// Slots that join a pair with a post's packets: how many there are, and the first PSN.
#[derive(Clone, Copy, Debug, PartialEq, Eq)]
pub struct Joining {
    pub moving: Moving,
    pub total: u32,
    pub settings: Settings,
    pub post: Post,
    pub first: u32,
}

// Packets that go out: how many are left, how many there are, the next slot, and where the last of them ended.
#[derive(Clone, Copy, Debug, PartialEq, Eq)]
pub struct Emitting {
    pub left: u32,
    pub total: u32,
    pub at: u32,
    pub x: u32,
    pub standing: Standing,
}

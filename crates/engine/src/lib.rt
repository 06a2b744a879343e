// The requester's decisions, by value: one function for each, on records alone. No table is touched here: a card lends one slot or one pair at a time, and
// a refused call becomes a walk of no steps.
#![tactic(auto)]

mod asking;
mod planning;
mod refusing;
mod scanning;
mod settling;

pub use asking::lent_to;
use outcomes::Found;
pub use planning::plan_of;
use refusal::Refusal;
pub use refusing::refusal;
use rules::{Answer, Ends, Pair, Post, Reply, Settings, Standing};
pub use scanning::{begin_scan, scan_step};
pub use settling::settle;
use walks::{Emitting, Joining, Leaving};

// What is asked of one pair.
#[derive(Clone, Copy, Debug, PartialEq, Eq)]
pub enum Ask {
    Open { settings: Settings, first: u32 },
    Post { post: Post },
    Emit { budget: u32 },
    Acknowledge { psn: u32, syndrome: u32 },
    Respond { psn: u32, opcode: u32, length: u32 },
    Tick { elapsed: u64 },
    Close,
}

// The packet that a scan looks for.
#[derive(Clone, Copy, Debug, PartialEq, Eq)]
pub enum Seek {
    // A read.
    Read,
    // One that ends after X.
    Waiting,
    // One that a release before this PSN leaves.
    Staying(u32),
    // A read that has this PSN.
    Covering(u32),
}

// What is sought, if anything, and what has been found.
#[derive(Clone, Copy, Debug, PartialEq, Eq)]
pub struct Search {
    pub seek: Option<Seek>,
    pub found: Option<Found>,
}

// A pair's queue on the way: how many slots are left to look at, the next of them, and the two packets that a call may ask for.
#[derive(Clone, Copy, Debug, PartialEq, Eq)]
pub struct Scan {
    pub left: u32,
    pub at: u32,
    pub standing: Standing,
    pub main: Search,
    pub read: Search,
}

// What a call that is not refused will answer, but for what the walks count.
#[derive(Clone, Copy, Debug, PartialEq, Eq)]
pub enum Told {
    Answered { answer: Answer, place: u32 },
    First(u32),
    Count,
}

// What a call is to do: its answer, how the pair will stand (but for X and H after an emission), and the three walks, of which at most one has steps.
#[derive(Clone, Copy, Debug, PartialEq, Eq)]
pub struct Plan {
    pub told: Result<Told, Refusal>,
    pub standing: Standing,
    pub leaving: Leaving,
    pub joining: Joining,
    pub emitting: Emitting,
}

// What is written back, and the answer.
#[derive(Clone, Copy, Debug, PartialEq, Eq)]
pub struct Settled {
    pub pair: Pair,
    pub ends: Ends,
    pub reply: Result<Reply, Refusal>,
}

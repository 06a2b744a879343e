// What the audit carries: from slot to slot of one pair's queue, and from queue to queue.

// The links: the slot to look at next, the one looked at last, and whether all were in the table.
// No Option: past a slot outside the table the walk still has a place to look at for each slot that is left, and its end tests the whole.
#[derive(Clone, Copy, Debug, PartialEq, Eq)]
pub struct Trail {
    pub at: u32,
    pub last: u32,
    pub ok: bool,
}

// The order, while all records fit: the place that the next one must start at, and whether X and H stand at a record's start.
#[derive(Clone, Copy, Debug, PartialEq, Eq)]
pub struct Course {
    pub place: u64,
    pub x: bool,
    pub h: bool,
}

// A Send or Write whose last record has not come: its post as far as the records tell, its first PSN, and how many records there were.
// No Option of what a First tells: where none was seen an address and a length of 0 serve, since no later record has either, and only the message's end asks `whole`.
#[derive(Clone, Copy, Debug, PartialEq, Eq)]
pub struct Begun {
    pub whole: bool,
    pub kind: u32,
    pub ticket: u32,
    pub offset: u32,
    pub address: u64,
    pub total: u32,
    pub first: u32,
    pub count: u32,
}

// The messages: where among them a record stands.
#[derive(Clone, Copy, Debug, PartialEq, Eq)]
pub enum Stage {
    Start,
    Between,
    Inside(Begun),
}

// One queue: the three together; no course once a record did not fit, and no stage once one went on with no message.
#[derive(Clone, Copy, Debug, PartialEq, Eq)]
pub struct Walk {
    pub trail: Trail,
    pub course: Option<Course>,
    pub stage: Option<Stage>,
}

// All queues, while each passes: the last slots of those that hold something, as a set (bit i % 64 of word i / 64), how many slots they hold, and how many are claimed.
// Four words are for 256 slots; the definitions ask for one word for each 64 slots.
#[derive(Clone, Copy, Debug, PartialEq, Eq)]
pub struct Tally {
    pub words: [u64; 4],
    pub held: u32,
    pub claimed: u32,
}

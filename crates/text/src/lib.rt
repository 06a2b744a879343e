// The trace's text: what a line asks, and how an answer is written. The contracts cite specs/, which
// follows the trace protocol sentence by sentence.
#![tactic(auto)]

mod calls;
mod decimal;
mod hex;
mod line;
mod page;
mod words;

pub use hex::decode;
pub use line::parse;
pub use page::Out;
pub use words::{argument, front};

// What a line asks for.
#[derive(Clone, Copy, Debug, PartialEq, Eq)]
pub enum Ask {
    // A blank line or a comment. One of the things that a line may ask, with an answer of its own: none.
    Nothing,
    Unread,
    Fresh,
    Open,
    Post,
    Emit,
    Ack,
    Response,
    Timer,
    Close,
    Room,
    Show,
    Free,
    Write,
    Read,
}

// The call and its numbers, in order, with zeros behind them.
#[derive(Clone, Copy, Debug, PartialEq, Eq)]
pub struct Parsed {
    pub ask: Ask,
    // As many as a call may have, with no count beside them: the call says how many are meant.
    pub args: [u64; 11],
}

// What follows a call's first word.
#[derive(Clone, Copy, Debug, PartialEq, Eq)]
pub enum Follow {
    // So many numbers.
    Numbers(usize),
    // Two numbers, each with its largest.
    Sizes(u64, u64),
    Hex,
}

#[derive(Clone, Copy, Debug, PartialEq, Eq)]
pub struct Row {
    pub ask: Ask,
    pub follow: Follow,
}

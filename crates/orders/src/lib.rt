// What a line of a trace asks of the card, by value.
#![tactic(auto)]

mod asked;

pub use asked::order_of;

// What a line asks. The pair is that of a call on a pair, or `show`'s, and `ask` is what such a call asks of it; the two lengths are `room`'s.
// A record, with no variant for each line: the definitions `ordered` and `order_of` and docs/CONTRACTS.md have it so.
#[derive(Clone, Copy, Debug, PartialEq, Eq)]
pub struct Order {
    pub what: text::Ask,
    pub pair: u32,
    pub ask: Option<engine::Ask>,
    pub bytes: usize,
    pub numbers: usize,
}

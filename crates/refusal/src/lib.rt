// Document 01's refusal numbers, a sentence each. A refused call gives its number and changes nothing.
#![tactic(auto)]

ghost use Rattle.std.specs.Prelude.{◌≡◌};
ghost use Rattle.refusal.specs.Numbers.{number};

#[derive(Clone, Copy, Debug, PartialEq, Eq, Hash)]
pub enum Refusal {
    // Pair number over 63.
    Pair = 1,
    // Opening a pair not closed; any other call on a closed pair; any but close on an ended pair.
    State = 2,
    // An argument out of its range.
    Range = 3,
    // A lent buffer too short.
    Buffer = 4,
    // A post of more slots than the pair's ceiling.
    Ceiling = 5,
    // A fenced post while the pair holds a read.
    Fence = 6,
    // A post that would take N too far from U.
    Distance = 7,
    // No room: past the ceiling, or the sum of the larger of share and held would pass the pool.
    Room = 8,
    // A read response inside the open range that does not fit.
    Response = 9,
    // A frame shorter than its headers.
    Short = 11,
    // An opcode that is none of ours.
    Opcode = 12,
    // A transport version that is not 0.
    Version = 13,
    // What follows the headers is no payload with its pad.
    Rest = 14,
    // The audit does not pass.
    Audit = 15,
}

impl Refusal {
    // No From: `u8::from(refusal)` would not say that it is document 01's number.
    pub fn number(self) -> u8
        ensures { result ≡ number self }
    {
        self as u8
    }
}

// Where the reading stands, and where it stands after a byte.
ghost use Rattle.std.specs.Prelude.{◌≡◌};
ghost use Rattle.replay.specs.Kept.{start, next_byte, next_line};

use card::Limits;
use message::Card;

// What is collected before it is written out: an answer always has as much room behind it.
pub(crate) const HALF: usize = 32768;

// Where the reading stands.
#[derive(Clone, Copy, Debug, PartialEq, Eq)]
pub struct Place {
    // The next byte of what was read, how many are to be taken now, and how many wait until the answers are written out.
    pub from: usize,
    pub left: usize,
    pub rest: usize,
    // How many bytes of the line are kept: there is no heap, so no Vec holds them.
    pub kept: usize,
    // The line's number, from 1.
    pub number: u64,
    // Where the next answer goes.
    pub at: usize,
    // The lengths of the lent buffers.
    pub limits: Limits,
    // There may be more to read.
    pub more: bool,
}

impl Place {
    pub(crate) fn new() -> Place
        ensures { result ≡ start }
    {
        Place {
            from: 0,
            left: 0,
            rest: 0,
            kept: 0,
            number: 1,
            at: 0,
            limits: Limits {
                numbers: Card::NUMBERS,
                bytes: 3072,
            },
            more: true,
        }
    }

    // A byte was taken.
    pub(crate) fn next_byte(self) -> Place
        ensures { result ≡ next_byte self }
    {
        Place {
            from: self.from.saturating_add(1),
            left: self.left.saturating_sub(1),
            ..self
        }
    }

    // The next line begins; where many answers wait, what was read waits as well.
    pub(crate) fn next_line(self, limits: Limits) -> Place
        ensures { result ≡ next_line self limits }
    {
        let next = self.next_byte();
        let (left, rest) = if HALF < self.at {
            (0, next.left)
        } else {
            (next.left, self.rest)
        };
        Place {
            left,
            rest,
            kept: 0,
            number: self.number.saturating_add(1),
            limits,
            ..next
        }
    }
}

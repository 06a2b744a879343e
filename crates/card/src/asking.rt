// How much of the lent buffers a call may use.
ghost use Rattle.std.specs.Prelude.{◌≡◌, min};
ghost use Rattle.engine.specs.Asked.{lent_of};

use crate::Limits;
use engine::{Ask, lent_to};

// The length of the buffer that is lent for it, as far as it may be used.
pub(crate) fn room_within(limits: Limits, ask: Ask, numbers: usize, bytes: usize) -> usize
    ensures { result ≡ lent_of ask (min limits.numbers numbers) (min limits.bytes bytes) }
{
    lent_to(ask, limits.numbers.min(numbers), limits.bytes.min(bytes))
}

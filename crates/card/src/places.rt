// One record of a lent table: read or written where it stands. Past the table's end all reads as 0, and nothing is written.
// `slot_at` and `pair_at` stay two, as the definitions have them: each is one call of `record_or`.
ghost use Rattle.std.specs.Prelude.{◌≡◌, get_or};
ghost use Rattle.rules.specs.Slots.{no_slot, no_pair, slot_at, pair_at, relinked};

use rules::{Pair, Slot};
use walks::{put_if, with_link};

pub fn no_slot() -> Slot
    ensures { result ≡ no_slot }
{
    Slot::default()
}

pub fn no_pair() -> Pair
    ensures { result ≡ no_pair }
{
    Pair::default()
}

// One record read, past the table's end what is given. lent's `look-any-meets` is the walk of it.
fn record_or<T: Copy>(table: &[T], i: usize, none: T) -> T
    ensures { result ≡ get_or table.now i none }
{
    if i < table.len() { table[i] } else { none }
}

#[tactic(auto, unfolding(rules::specs::Slots::slot_at))]
pub fn slot_at(slots: &[Slot], i: usize) -> Slot
    ensures { result ≡ slot_at slots.now i }
{
    record_or(slots, i, no_slot())
}

#[tactic(auto, unfolding(rules::specs::Slots::pair_at))]
pub fn pair_at(pairs: &[Pair], i: usize) -> Pair
    ensures { result ≡ pair_at pairs.now i }
{
    record_or(pairs, i, no_pair())
}

// A slot's link is written, and nothing else of it.
pub(crate) fn relink(slots: &mut [Slot], i: usize, link: u32)
    ensures { slots.new ≡ relinked i link slots.old }
{
    put_if(slots, i, with_link(slot_at(slots, i), link));
}

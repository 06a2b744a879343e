// A fresh start's two tables, record by record.
ghost use Rattle.std.specs.Prelude.{◌≡◌, ℕ};
ghost use Rattle.card.specs.Inner.{free_slot, pair_row, fill, start_of};

use crate::Started;
use message::Card;
use refusal::Refusal;
use rules::{Answer, Ends, Pair, Queue, Reply, Slot};
use walks::put_if;

#[tactic(auto, unfolding(crate::specs::Inner::start_of))]
pub(crate) fn start_of(pairs: usize, slots: usize, e: Ends) -> Started
    ensures { result ≡ start_of pairs slots e }
{
    if pairs == Card::PAIRS as usize && slots == Card::SLOTS as usize {
        Started {
            pairs: Card::PAIRS,
            slots: Card::SLOTS,
            ends: Ends {
                first: 0,
                last: Card::SLOTS - 1,
            },
            reply: Ok(Reply::Answered {
                answer: Answer::Done,
                messages: 0,
                place: 0,
            }),
        }
    } else {
        Started {
            pairs: 0,
            slots: 0,
            ends: e,
            reply: Err(Refusal::Audit),
        }
    }
}

// A record of a fresh start's table: the n-th, counted from 1.
pub(crate) trait Row: Copy {
    ghost nth: { ℕ → Self };

    fn fresh(n: u32) -> Self
        ensures { result ≡ nth n };
}

// Closed, and its queue empty.
impl Row for Pair {
    ghost nth = { pair_row };

    fn fresh(_n: u32) -> Pair {
        let queue = Queue {
            first: Card::NONE,
            last: Card::NONE,
            held: 0,
        };
        Pair {
            queue,
            ..Pair::default()
        }
    }
}

// A free slot leads to the one after it.
impl Row for Slot {
    ghost nth = { free_slot };

    fn fresh(n: u32) -> Slot {
        Slot {
            link: n,
            ..Slot::default()
        }
    }
}

// So many records are written, from the last to the first as the definition does: `iter_mut().zip(1..=count)` goes upward, and would need a proof that the order does not matter.
pub(crate) fn fill<T: Row>(rows: &mut [T], count: u32)
    ensures { rows.new ≡ (fill T.nth (record { left = count; rows = rows.old })).rows }
{
    for n in (0..count).rev() {
        put_if(rows, n as usize, T::fresh(n + 1));
    }
}

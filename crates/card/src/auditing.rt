// The audit over the lent tables: each queue slot by slot, pair by pair, then the free queue. Nothing is written.
ghost use Rattle.std.specs.Prelude.{◌≡◌};
ghost use Rattle.rules.specs.Slots.{Tables};
ghost use Rattle.audit.specs.Steps.{follow_step, trace_step};
ghost use Rattle.audit.specs.Loops.{audit_turn, audit_pairs, audited};
ghost use Rattle.card.specs.Walking.{follow_less, trace_less};

use crate::places::pair_at;
use crate::walking::{Walk, follow};
use audit::{
    Auditing, Following, Tracing, begin_audit, follow_step, join_free, join_queue, next_free,
    next_pair, next_slot, open_free, open_queue, trace_step,
};
use rules::{Ends, Pair, Slot};

// One pair's queue.
impl Walk for Following {
    ghost remaining = { λ w. w.left };

    ghost next = { λ w. w.walk.trail.at };

    ghost onward = { follow_step };

    ghost less = { follow_less };

    fn left(self) -> u32 {
        self.left
    }

    fn at(self) -> usize {
        next_slot(self)
    }

    fn step(self, slot: Slot) -> Following {
        follow_step(self, slot)
    }
}

// The free queue.
impl Walk for Tracing {
    ghost remaining = { λ w. w.left };

    ghost next = { λ w. w.trail.at };

    ghost onward = { trace_step };

    ghost less = { trace_less };

    fn left(self) -> u32 {
        self.left
    }

    fn at(self) -> usize {
        next_free(self)
    }

    fn step(self, slot: Slot) -> Tracing {
        trace_step(self, slot)
    }
}

fn audit_turn(pairs: &[Pair], slots: &[Slot], v: Auditing) -> Auditing
    ensures { result ≡ audit_turn pairs.now slots.now v }
{
    let p = pair_at(pairs, next_pair(v));
    join_queue(v, p, open_queue(v, p).map(|w| follow(slots, w)))
}

// No `for` over the pairs: how many are left is in what is carried, and is 0 once a pair failed.
fn audit_pairs(pairs: &[Pair], slots: &[Slot], start: Auditing) -> Auditing
    ensures { result ≡ audit_pairs pairs.now slots.now start }
{
    let mut v = start;
    while v.left > 0 {
        v = audit_turn(pairs, slots, v);
    }
    v
}

// How many slots the open pairs claim, where the tables pass.
pub(crate) fn audit_tables(pairs: &[Pair], slots: &[Slot], e: Ends) -> Option<u32>
    ensures { result ≡ audited (record { pairs = pairs.now; ends = e; slots = slots.now }) }
{
    let v = audit_pairs(pairs, slots, begin_audit(pairs.len(), slots.len()));
    let w = follow(slots, open_free(v, e));
    join_free(v, e, w)
}

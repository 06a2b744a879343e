// The audit, by value: what is carried from slot to slot and from pair to pair, and one step of each. No table is touched here.
#![tactic(auto, using(crate::proofs::Both::both))]

mod links;
mod made;
mod messages;
mod order;
mod record;
mod tally;
mod walk;

ghost use Rattle.std.specs.Prelude.{◌≡◌};
ghost use Rattle.audit.specs.Steps.{begin_audit, next_pair, walkable, open_queue, follow_step, join_queue, free_queue, open_free, trace_step, join_free};

use crate::links::{trail_ends, trail_from, trail_step};
use crate::record::record_passes;
use crate::tally::{claim_by, has_room, tally_from, tally_step};
use crate::walk::{audit_step, walk_ends, walk_from};
use message::Card;
use rules::carried::{Tally, Trail, Walk};
use rules::{Ends, Pair, Queue, Slot, Standing};

// One pair's queue on the way: how many slots are left to look at, and what the walk carries.
#[derive(Clone, Copy, Debug, PartialEq, Eq)]
pub struct Following {
    pub left: u32,
    pub standing: Standing,
    pub walk: Walk,
}

// The free queue on the way: its links are all that is looked at.
#[derive(Clone, Copy, Debug, PartialEq, Eq)]
pub struct Tracing {
    pub left: u32,
    pub trail: Trail,
}

// All pairs on the way: how many are left, and the tally of those before; none is left once one failed.
#[derive(Clone, Copy, Debug, PartialEq, Eq)]
pub struct Auditing {
    pub left: u32,
    pub tally: Option<Tally>,
}

// The tables are there with so many records.
pub fn begin_audit(pairs: usize, slots: usize) -> Auditing
    ensures { result ≡ begin_audit pairs slots }
{
    if pairs == Card::PAIRS as usize && slots == Card::SLOTS as usize {
        Auditing {
            left: Card::PAIRS,
            tally: tally_from(),
        }
    } else {
        Auditing {
            left: 0,
            tally: None,
        }
    }
}

pub fn next_pair(v: Auditing) -> usize
    ensures { result ≡ next_pair v }
{
    Card::PAIRS.saturating_sub(v.left) as usize
}

fn walkable(t: Option<Tally>, p: Pair) -> bool
    ensures { result ≡ walkable t p }
{
    t.is_some_and(|t| {
        record_passes(p.standing, p.queue.held) && has_room(t, p.queue.held, claim_by(p))
    })
}

// A pair that failed has no queue to walk.
pub fn open_queue(v: Auditing, p: Pair) -> Option<Following>
    ensures { result ≡ open_queue v p }
{
    walkable(v.tally, p).then_some(Following {
        left: p.queue.held,
        standing: p.standing,
        walk: walk_from(p.queue),
    })
}

// The slot that a pair's queue goes on with.
pub fn next_slot(w: Following) -> usize
    ensures { result ≡ w.walk.trail.at }
{
    w.walk.trail.at as usize
}

pub fn follow_step(w: Following, i: Slot) -> Following
    ensures { result ≡ follow_step w i }
{
    Following {
        left: w.left.saturating_sub(1),
        walk: audit_step(w.standing, w.walk, i),
        ..w
    }
}

pub fn join_queue(v: Auditing, p: Pair, w: Option<Following>) -> Auditing
    ensures { result ≡ join_queue v p w }
{
    let passed = w.is_some_and(|w| walk_ends(p.standing, p.queue, w.walk));
    let tally = tally_step(v.tally, passed, p.queue, claim_by(p));
    Auditing {
        left: if tally.is_some() {
            v.left.saturating_sub(1)
        } else {
            0
        },
        tally,
    }
}

fn free_queue(v: Auditing, e: Ends) -> Queue
    ensures { result ≡ free_queue v e }
{
    Queue {
        first: e.first,
        last: e.last,
        held: v.tally.map_or(0, |t| Card::SLOTS.saturating_sub(t.held)),
    }
}

pub fn open_free(v: Auditing, e: Ends) -> Tracing
    ensures { result ≡ open_free v e }
{
    let q = free_queue(v, e);
    Tracing {
        left: q.held,
        trail: trail_from(q),
    }
}

// The slot that the free queue goes on with: a name of its own, as `next_slot` and `follow_step` have theirs, since card's two walks carry two types.
pub fn next_free(w: Tracing) -> usize
    ensures { result ≡ w.trail.at }
{
    w.trail.at as usize
}

pub fn trace_step(w: Tracing, i: Slot) -> Tracing
    ensures { result ≡ trace_step w i }
{
    Tracing {
        left: w.left.saturating_sub(1),
        trail: trail_step(w.trail, i),
    }
}

// How many slots the open pairs claim, where the audit passed.
pub fn join_free(v: Auditing, e: Ends, w: Tracing) -> Option<u32>
    ensures { result ≡ join_free v e w }
{
    let q = free_queue(v, e);
    tally_step(v.tally, trail_ends(q, w.trail), q, 0).map(|t| t.claimed)
}

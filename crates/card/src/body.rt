// One body for every call: audit, the pair's record, scan, plan, the three walks, and the pair's record advances where it stands. A refused call is a walk of no steps.
ghost use Rattle.std.specs.Prelude.{◌≡◌, set};
ghost use Rattle.rules.specs.Slots.{pair_at};
ghost use Rattle.card.specs.Lent.{lent};
ghost use Rattle.card.specs.Inner.{plan_with, acted_on, Acts, finished, body_in, Runs};

use crate::acting::{emit, join, leave};
use crate::asking::room_within;
use crate::auditing::audit_tables;
use crate::places::{no_pair, pair_at};
use crate::walking::follow;
use crate::{Limits, Walked};
use engine::{Ask, Plan, Settled, begin_scan, plan_of, settle};
use refusal::Refusal;
use rules::{Ends, Pair, Reply, Slot};

// What the call is to do: nothing is written.
fn decide(pairs: &[Pair], slots: &[Slot], e: Ends, pair: u32, ask: Ask, room: usize) -> Plan
    ensures { result ≡ plan_with pair ask (lent pairs.now e slots.now) room }
{
    let v = audit_tables(pairs, slots, e);
    let p = pair_at(pairs, pair as usize);
    let c = follow(slots, begin_scan(v, p, ask));
    plan_of(v, pair, p, e, c, ask, room)
}

// The three walks, of which at most one has steps.
fn act(slots: &mut [Slot], done: &mut [u32], out: &mut [u8], g: Plan) -> Walked
    ensures { Acts (acted_on g slots.old done.old out.old)
        result slots.new done.new out.new }
{
    Walked {
        leaving: leave(slots, done, g.leaving),
        joining: join(slots, g.joining),
        emitting: emit(slots, out, g.emitting),
    }
}

// What is to be written back, by value. It takes the walks' ends apart: `settle` is public and takes three, as docs/CONTRACTS.md has it.
fn finish(p: Pair, e: Ends, g: Plan, w: Walked) -> Settled
    ensures { result ≡ finished p e g w }
{
    settle(p, e, g, w.leaving, w.joining, w.emitting)
}

// The pair's record advances in its own place.
fn advance(pair: &mut Pair, e: Ends, g: Plan, w: Walked) -> Settled
    ensures { (result ≡ finished pair.old e g w) × (pair.new ≡ (finished pair.old e g w).pair) }
{
    let t = finish(*pair, e, g, w);
    *pair = t.pair;
    t
}

// Past the table's end there is no record, and nothing is written.
fn advance_at(pairs: &mut [Pair], i: usize, e: Ends, g: Plan, w: Walked) -> Settled
    ensures { (result ≡ finished (pair_at pairs.old i) e g w)
        × (pairs.new ≡ set pairs.old i (finished (pair_at pairs.old i) e g w).pair) }
{
    if i < pairs.len() {
        advance(&mut pairs[i], e, g, w)
    } else {
        // One equation is its contract; that of `Pair::default()` is field by field.
        finish(no_pair(), e, g, w)
    }
}

pub fn call(
    pairs: &mut [Pair],
    ends: &mut Ends,
    slots: &mut [Slot],
    done: &mut [u32],
    out: &mut [u8],
    limits: Limits,
    pair: u32,
    ask: Ask,
) -> Result<Reply, Refusal>
    ensures { Runs (body_in limits pair ask (lent pairs.old ends.old slots.old) done.old out.old)
        result pairs.new ends.new slots.new done.new out.new }
{
    let e = *ends;
    let room = room_within(limits, ask, done.len(), out.len());
    let g = decide(pairs, slots, e, pair, ask, room);
    let w = act(slots, done, out, g);
    let t = advance_at(pairs, pair as usize, e, g, w);
    *ends = t.ends;
    t.reply
}

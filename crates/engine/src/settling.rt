// After the walks: the pair's next record, the free queue's ends, the answer.
ghost use Rattle.std.specs.Prelude.{◌≡◌};
ghost use Rattle.rules.specs.Emission.{moved_to};
ghost use Rattle.walks.specs.Ended.{shorter, longer, free_longer, free_shorter};
ghost use Rattle.engine.specs.Settling.{left_settled, joined_settled, emitted_settled, settled_of};

use crate::{Plan, Settled, Told};
use message::Card;
use outcomes::further;
use rules::{Answer, Ends, Line, Pair, Queue, Reply, Standing};
use walks::{Emitting, Joining, Leaving, Moving};

// A queue from whose front k slots went keeps its last, unless it is empty now.
fn shorter(q: Queue, k: u32, w: Moving) -> Queue
    ensures { result ≡ shorter q k w }
{
    let held = q.held.saturating_sub(k);
    Queue {
        first: w.at,
        last: if held == 0 { Card::NONE } else { q.last },
        held,
    }
}

// No pair holds more slots than there are.
fn longer(q: Queue, k: u32, w: Moving) -> Queue
    ensures { result ≡ longer q k w }
{
    Queue {
        first: w.first,
        last: w.last,
        held: q.held.saturating_add(k).min(Card::SLOTS),
    }
}

fn free_longer(w: Moving) -> Ends
    ensures { result ≡ free_longer w }
{
    Ends {
        first: w.first,
        last: w.last,
    }
}

fn free_shorter(e: Ends, w: Moving) -> Ends
    ensures { result ≡ free_shorter e w }
{
    Ends {
        first: w.at,
        last: if w.at == Card::NONE {
            Card::NONE
        } else {
            e.last
        },
    }
}

// X moves past what went out, H to the further of H and X.
fn moved_to(x: u32, t: Standing) -> Standing
    ensures { result ≡ moved_to x t }
{
    let l = t.line;
    let h = further(l.u, l.h, x);
    Standing {
        line: Line { x, h, ..l },
        ..t
    }
}

// These three take the pair, the ends and the plan as `settle` does, whose contract and definitions have them apart.
// Slots have left the pair for the free queue.
fn left_settled(p: Pair, g: Plan, l: Leaving, answer: Answer, place: u32) -> Settled
    ensures { result ≡ left_settled p g l.moving answer l.messages place }
{
    Settled {
        pair: Pair {
            standing: g.standing,
            queue: shorter(p.queue, g.leaving.moving.left, l.moving),
        },
        ends: free_longer(l.moving),
        reply: Ok(Reply::Answered {
            answer,
            messages: l.messages,
            place,
        }),
    }
}

// Slots of the free queue have joined the pair.
fn joined_settled(p: Pair, e: Ends, g: Plan, w: Moving, first: u32) -> Settled
    ensures { result ≡ joined_settled p e g w first }
{
    Settled {
        pair: Pair {
            standing: g.standing,
            queue: longer(p.queue, g.joining.total, w),
        },
        ends: free_shorter(e, w),
        reply: Ok(Reply::First(first)),
    }
}

// Packets have gone out; every slot is where it was.
fn emitted_settled(p: Pair, e: Ends, g: Plan, m: Emitting) -> Settled
    ensures { result ≡ emitted_settled p e g m }
{
    Settled {
        pair: Pair {
            standing: moved_to(m.x, g.standing),
            ..p
        },
        ends: e,
        reply: Ok(Reply::Count(m.total)),
    }
}

// By what the plan tells: l, j and m are the walks' ends. Where it is refused, nothing is written.
#[tactic(auto, unfolding(crate::specs::Settling::settled_of))]
pub fn settle(p: Pair, e: Ends, g: Plan, l: Leaving, j: Joining, m: Emitting) -> Settled
    ensures { result ≡ settled_of p e g l j m }
{
    match g.told {
        Err(r) => Settled {
            pair: p,
            ends: e,
            reply: Err(r),
        },
        Ok(Told::Answered { answer, place }) => left_settled(p, g, l, answer, place),
        Ok(Told::First(n)) => joined_settled(p, e, g, j.moving, n),
        Ok(Told::Count) => emitted_settled(p, e, g, m),
    }
}

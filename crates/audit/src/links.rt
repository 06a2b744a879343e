// A queue's links: every slot number is in the table, and the last slot is the queue's last end.
ghost use Rattle.std.specs.Prelude.{◌≡◌};
ghost use Rattle.rules.specs.Card.{small};
ghost use Rattle.rules.specs.Passes.Links.{trail_from, trail_step, trail_ends};

use message::Card;
use rules::carried::Trail;
use rules::{Queue, Slot};

pub(crate) fn trail_from(q: Queue) -> Trail
    ensures { result ≡ trail_from small.none q }
{
    Trail {
        at: q.first,
        last: Card::NONE,
        ok: true,
    }
}

pub(crate) fn trail_step(w: Trail, i: Slot) -> Trail
    ensures { result ≡ trail_step small.slots w i }
{
    Trail {
        at: i.link,
        last: w.at,
        ok: w.ok && w.at < Card::SLOTS,
    }
}

pub(crate) fn trail_ends(q: Queue, w: Trail) -> bool
    ensures { result ≡ trail_ends small.none q w }
{
    w.ok && w.at == Card::NONE && w.last == q.last
}

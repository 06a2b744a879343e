// The steps of the walks that act: a slot leaves a pair for the free queue's end, or joins one with a packet of a post.
ghost use Rattle.std.specs.Prelude.{◌≡◌, set, if◌then◌else◌};
ghost use Rattle.walks.specs.Acting.{move_step, leave_step, completed, join_step, join_slot};

use crate::{Joining, Leaving, Moving};
use message::{Card, ends_message, place_at};
use rules::Slot;

pub fn with_link(i: Slot, link: u32) -> Slot
    ensures { result ≡ record { link = link; packet = i.packet } }
{
    Slot { link, ..i }
}

pub fn move_step(w: Moving, i: Slot) -> Moving
    ensures { result ≡ move_step w i }
{
    Moving {
        left: w.left.saturating_sub(1),
        at: i.link,
        // A number and no Option: the walks write these links back.
        first: if w.first == Card::NONE { w.at } else { w.first },
        last: w.at,
    }
}

pub fn leave_step(w: Leaving, i: Slot) -> Leaving
    ensures { result ≡ leave_step w i }
{
    Leaving {
        moving: move_step(w.moving, i),
        released: w.released.saturating_sub(1),
        messages: if ends_message(i.packet) {
            w.messages.wrapping_add(1)
        } else {
            w.messages
        },
    }
}

// An entry at its place in a table, if there is one. By its index: through `get_mut` a proof learns nothing of the table after but its length.
pub fn put_if<T: Copy>(table: &mut [T], at: usize, entry: T)
    ensures { table.new ≡ set table.old at entry }
{
    if at < table.len() {
        table[at] = entry;
    }
}

// A message's ticket and status, at its place: 0 where it is released, 1 where it is flushed.
pub fn complete(done: &mut [u32], w: Leaving, i: Slot)
    ensures { done.new ≡ completed done.old w i }
{
    if ends_message(i.packet) {
        let at = 2 * w.messages as usize;
        put_if(done, at, i.packet.ticket);
        put_if(done, at + 1, u32::from(w.released == 0));
    }
}

pub fn join_step(w: Joining, i: Slot) -> Joining
    ensures { result ≡ join_step w i }
{
    Joining {
        moving: move_step(w.moving, i),
        ..w
    }
}

// The slot that joins next, as it is stored.
pub fn join_slot(w: Joining) -> Slot
    ensures { result ≡ join_slot w }
{
    let place = w.total.saturating_sub(w.moving.left);
    Slot {
        link: Card::NONE,
        packet: place_at(w.settings, w.post, w.first, place),
    }
}

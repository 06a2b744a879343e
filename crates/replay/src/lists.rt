// The slots that `show` and `free` list, one after the other.
ghost use Rattle.std.specs.Prelude.{◌≡◌, ◌-◌};
ghost use Rattle.text.specs.Out.{Puts};
ghost use Rattle.rules.specs.Card.{small};
ghost use Rattle.rules.specs.Slots.{held_by};
ghost use Rattle.replay.specs.Answer.{item_text, items_text};

use answers::{put_member, put_slot};
use card::slot_at;
use message::Card;
use rules::{Pair, Slot};
use text::Out;

// How many slots no pair holds.
pub(crate) fn free_slots(pairs: &[Pair]) -> u32
    ensures { result ≡ small.slots - held_by pairs.now }
{
    pairs.iter().fold(Card::SLOTS, |free, p| { free.saturating_sub(p.queue.held) })
}

// In full, as a packet that is held, or by its number alone.
fn put_item(out: &mut Out, full: bool, slot: u32, s: Slot)
    ensures same { out.new.bytes.ghost_name ≡ out.old.bytes.ghost_name }
    ensures after { Puts out.old.bytes.now out.old.at (item_text full slot s) out.new.bytes.now out.new.at }
{
    if full {
        put_member(out, slot, s);
    } else {
        put_slot(out, slot);
    }
}

// So many slots, from `first` on by the links.
pub(crate) fn put_items(out: &mut Out, slots: &[Slot], full: bool, first: u32, count: u32)
    ensures same { out.new.bytes.ghost_name ≡ out.old.bytes.ghost_name }
    ensures after { Puts out.old.bytes.now out.old.at (items_text slots.now full first count) out.new.bytes.now out.new.at }
{
    let mut at = first;
    for _ in 0..count {
        let s = slot_at(slots, at as usize);
        put_item(out, full, at, s);
        at = s.link;
    }
}

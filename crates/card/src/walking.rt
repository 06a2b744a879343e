// The walks that only look: along a queue's links, as many slots as are left. One loop for the audit's two and the scan.
ghost use Rattle.std.specs.Prelude.{◌≡◌, ℕ, ◌<◌};
ghost use Rattle.refusal.specs.Loop.{loop};
ghost use Rattle.rules.specs.Slots.{slot_at};
ghost use Rattle.rules.specs.declared.Slot.{Slot};
ghost use Rattle.engine.specs.Scanning.{scan_step};
ghost use Rattle.card.specs.Walking.{scan_less};

use crate::places::slot_at;
use engine::{Scan, scan_step};
use rules::Slot;

pub(crate) trait Walk: Copy {
    ghost remaining: { Self → ℕ };

    ghost next: { Self → ℕ };

    ghost onward: { Self → Slot → Self };

    // How many slots are left to look at.
    fn left(self) -> u32
        ensures { result ≡ remaining self };

    // The place of the next.
    fn at(self) -> usize
        ensures { result ≡ next self };

    fn step(self, slot: Slot) -> Self
        ensures { result ≡ onward self slot };

    // Each step leaves fewer slots.
    ghost less: { (w : Self) (i : Slot) → 0 < remaining w → remaining (onward w i) < remaining w };
}

pub(crate) fn follow<W: Walk>(slots: &[Slot], start: W) -> W
    ensures { result ≡ loop W.remaining (λ w. W.onward w (slot_at slots.now (W.next w))) start }
{
    let mut w = start;
    // No index: how many are left is in what is carried, and a step may leave none.
    while w.left() > 0 {
        w = w.step(slot_at(slots, w.at()));
    }
    w
}

// The scan of one pair's queue for the packet that a call turns on.
impl Walk for Scan {
    ghost remaining = { λ w. w.left };

    ghost next = { λ w. w.at };

    ghost onward = { scan_step };

    ghost less = { scan_less };

    fn left(self) -> u32 {
        self.left
    }

    fn at(self) -> usize {
        self.at as usize
    }

    fn step(self, slot: Slot) -> Scan {
        scan_step(self, slot)
    }
}

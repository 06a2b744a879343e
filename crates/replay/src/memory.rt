// All that the card is lent, and what a line asks of it carried out.
ghost use Rattle.std.specs.Prelude.{◌≡◌};
ghost use Rattle.replay.specs.Serving.{carried_out};

use card::{Limits, call, fresh_start};
use message::Card;
use orders::Order;
use refusal::Refusal;
use rules::{Ends, Pair, Reply, Slot};
use text::Ask;

#[derive(Drop)]
pub struct Memory {
    pub pairs: [Pair; Card::PAIRS as usize],
    pub ends: Ends,
    pub slots: [Slot; Card::SLOTS as usize],
    // The lent buffers, as long as `room` may have them: there is no heap, so `Limits` says how much of them is lent.
    pub numbers: [u32; 2048],
    pub bytes: [u8; 8192],
}

impl Memory {
    // As after a fresh start.
    pub(crate) fn new() -> Memory {
        let mut pairs = [Pair::default(); Card::PAIRS as usize];
        let mut ends = Ends::default();
        let mut slots = [Slot::default(); Card::SLOTS as usize];
        let _ = fresh_start(&mut pairs, &mut ends, &mut slots);
        Memory {
            pairs,
            ends,
            slots,
            numbers: [0; 2048],
            bytes: [0; 8192],
        }
    }

    // What is replied, where a call or a fresh start is asked for.
    #[tactic(auto, using(crate::proofs::Rest::not_fresh))]
    pub(crate) fn carry(&mut self, limits: Limits, q: Order) -> Option<Result<Reply, Refusal>>
        ensures reply { result ≡ (carried_out limits q self.old).reply }
        ensures memory { self.new ≡ (carried_out limits q self.old).memory }
    {
        match (q.ask, q.what) {
            (Some(ask), _) => Some(call(
                &mut self.pairs,
                &mut self.ends,
                &mut self.slots,
                &mut self.numbers,
                &mut self.bytes,
                limits,
                q.pair,
                ask,
            )),
            (None, Ask::Fresh) => Some(fresh_start(
                &mut self.pairs,
                &mut self.ends,
                &mut self.slots,
            )),
            _ => None,
        }
    }
}

// The text of what a line asks of the tables.
ghost use Rattle.std.specs.Prelude.{◌≡◌};
ghost use Rattle.text.specs.Out.{Puts};
ghost use Rattle.replay.specs.Answer.{show_text, free_text};
ghost use Rattle.replay.specs.Serving.{tables_of, answer_of, limits_after};

use crate::lists::{free_slots, put_items};
use crate::memory::Memory;
use answers::{put_end, put_reply, put_standing};
use card::{Limits, pair_at};
use message::Card;
use orders::Order;
use refusal::Refusal;
use rules::Reply;
use text::{Ask, Out};

// The lengths of the lent buffers from here on.
#[tactic(auto, using(crate::proofs::Rest::no_room))]
pub(crate) fn limits_after(q: Order, limits: Limits) -> Limits
    ensures { result ≡ limits_after q limits }
{
    match q.what {
        Ask::Room => Limits {
            numbers: q.numbers,
            bytes: q.bytes,
        },
        _ => limits,
    }
}

impl Memory {
    fn put_show(&self, out: &mut Out, pair: u32)
        ensures same { out.new.bytes.ghost_name ≡ out.old.bytes.ghost_name }
        ensures after { Puts out.old.bytes.now out.old.at (show_text (tables_of self.now) pair) out.new.bytes.now out.new.at }
    {
        if pair >= Card::PAIRS {
            return put_reply(
                out,
                &self.numbers,
                &self.bytes,
                Ask::Show,
                Err(Refusal::Pair),
            );
        }
        let p = pair_at(&self.pairs, pair as usize);
        put_standing(out, pair, p);
        put_items(out, &self.slots, true, p.queue.first, p.queue.held);
        put_end(out);
    }

    fn put_free(&self, out: &mut Out)
        ensures same { out.new.bytes.ghost_name ≡ out.old.bytes.ghost_name }
        ensures after { Puts out.old.bytes.now out.old.at (free_text (tables_of self.now)) out.new.bytes.now out.new.at }
    {
        out.put(b"free");
        put_items(
            out,
            &self.slots,
            false,
            self.ends.first,
            free_slots(&self.pairs),
        );
        put_end(out);
    }

    // What was replied, or what is looked up in the tables.
    #[tactic(auto, using(crate::proofs::Rest::no_look), unfolding(text::specs::Out::put_all))]
    pub(crate) fn put_answer(&self, out: &mut Out, q: Order, reply: Option<Result<Reply, Refusal>>)
        ensures same { out.new.bytes.ghost_name ≡ out.old.bytes.ghost_name }
        ensures after { Puts out.old.bytes.now out.old.at (answer_of self.now q reply) out.new.bytes.now out.new.at }
    {
        match reply {
            Some(r) => put_reply(out, &self.numbers, &self.bytes, q.what, r),
            None => match q.what {
                Ask::Room => out.put(b"room\n"),
                Ask::Show => self.put_show(out, q.pair),
                Ask::Free => self.put_free(out),
                _ => {}
            },
        }
    }
}

// All that lies in the program's memory but for what was read: a line is put together byte by byte, and answered behind the answers that wait.
ghost use Rattle.std.specs.Prelude.{◌≡◌};
ghost use Rattle.replay.specs.Serving.{written, answered, kept_in, fed, fed_all};

use crate::LARGE;
use crate::answer::limits_after;
use crate::memory::Memory;
use crate::place::Place;
use answers::put_text;
use orders::{Order, order_of};
use refusal::Refusal;
use rules::Reply;
use text::{Out, front};

// What is kept of a line: one of so many bytes is not read, however many follow.
const LINE: usize = 20001;

#[derive(Drop)]
pub struct Desk {
    pub memory: Memory,
    // No Vec: the program has no heap.
    pub line: [u8; LINE],
    // The answers that wait to be written, up to `place.at`: no Out, which borrows its buffer and so cannot be kept with it.
    pub text: [u8; LARGE],
    pub place: Place,
}

impl Desk {
    // Before the first line.
    pub(crate) fn new() -> Desk {
        Desk {
            memory: Memory::new(),
            line: [0; LINE],
            text: [0; LARGE],
            place: Place::new(),
        }
    }

    // The line's text, with what was replied, goes behind those that wait.
    fn write(&mut self, q: Order, reply: Option<Result<Reply, Refusal>>)
        ensures { self.new ≡ written q reply self.old }
    {
        let mut out = Out {
            bytes: &mut self.text,
            at: self.place.at,
        };
        put_text(
            &mut out,
            front(&self.line, self.place.kept),
            self.place.number,
        );
        self.memory.put_answer(&mut out, q, reply);
        self.place.at = out.at;
    }

    // What the line asks is carried out, and answered.
    #[tactic(auto, unfolding(crate::specs::Serving::answered))]
    fn answer(&mut self)
        ensures { self.new ≡ answered self.old }
    {
        let q = order_of(front(&self.line, self.place.kept));
        let reply = self.memory.carry(self.place.limits, q);
        self.write(q, reply);
        let limits = limits_after(q, self.place.limits);
        self.place = self.place.next_line(limits);
    }

    // A byte more of the line, where there is room for it.
    fn keep(&mut self, b: u8)
        ensures { self.new ≡ kept_in b self.old }
    {
        let i = self.place.kept;
        self.place = self.place.next_byte();
        if i < self.line.len() {
            self.line[i] = b;
            self.place.kept = i + 1;
        }
    }

    fn take(&mut self, input: &[u8])
        ensures { self.new ≡ fed input.now self.old }
    {
        let b = input.get(self.place.from).copied().unwrap_or(0);
        if b == b'\n' {
            self.answer();
        } else {
            self.keep(b);
        }
    }

    // The bytes that are to be taken now: a count in the place, since a line may put the rest of them off.
    pub(crate) fn feed(&mut self, input: &[u8])
        ensures { self.new ≡ fed_all input.now self.old }
    {
        while self.place.left > 0 {
            self.take(input);
        }
    }
}

// What a call left in the two buffers: completions in the numbers, records in the bytes.
ghost use Rattle.std.specs.Prelude.{◌≡◌, ◌*◌, ℕ, List, get_or, take, drop, length};
ghost use Rattle.text.specs.Out.{Puts};
ghost use Rattle.rules.specs.Emission.{record_bytes};
ghost use Rattle.answers.specs.Replied.{joined, completion, record_line};

use crate::print::put_number;
use text::{Out, front};

// A buffer, and how each of its items is written.
pub(crate) trait Items {
    ghost text: { Self → ℕ → List ℕ };

    fn put_item(&self, out: &mut Out, i: u32)
        ensures same { out.new.bytes.ghost_name ≡ out.old.bytes.ghost_name }
        ensures long { length out.new.bytes.now ≡ length out.old.bytes.now }
        ensures after { Puts out.old.bytes.now out.old.at (text self.now i) out.new.bytes.now out.new.at };
}

// The first `count` items.
pub(crate) fn put_items<T: Items>(out: &mut Out, items: &T, count: u32)
    ensures same { out.new.bytes.ghost_name ≡ out.old.bytes.ghost_name }
    ensures long { length out.new.bytes.now ≡ length out.old.bytes.now }
    ensures after { Puts out.old.bytes.now out.old.at (joined (T.text items.now) count) out.new.bytes.now out.new.at }
{
    for i in 0..count {
        items.put_item(out, i);
    }
}

// A number of the buffer, 0 past its end.
fn number_at(numbers: &[u32], i: usize) -> u64
    ensures { result ≡ get_or numbers.now i 0 }
{
    u64::from(numbers.get(i).copied().unwrap_or(0))
}

#[derive(Clone, Copy)]
pub(crate) struct Completions<'a>(pub(crate) &'a [u32]);

impl Items for Completions<'_> {
    ghost text = { λ c. completion c.0.now };

    fn put_item(&self, out: &mut Out, i: u32) {
        let k = 2 * i as usize;
        put_number(out, number_at(self.0, k));
        out.put(b":");
        out.put_decimal(number_at(self.0, k + 1));
    }
}

// The bytes of the i-th record, as many as the buffer has there. 48 is the `RECORD_BYTES` of walks, on which this crate does not stand.
fn record_at(bytes: &[u8], i: u32) -> &[u8]
    ensures { result.now ≡ take record_bytes (drop (record_bytes * i) bytes.now) }
{
    front(bytes.get(48 * i as usize..).unwrap_or(&[]), 48)
}

#[derive(Clone, Copy)]
pub(crate) struct Records<'a>(pub(crate) &'a [u8]);

impl Items for Records<'_> {
    ghost text = { λ r. record_line r.0.now };

    fn put_item(&self, out: &mut Out, i: u32) {
        out.put(b"record ");
        out.put_hex(record_at(self.0, i));
        out.put(b"\n");
    }
}

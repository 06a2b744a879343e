// The writer: a header by value to 32 bytes by value.
ghost use Rattle.std.specs.Prelude.{◌≡◌, [], if◌then◌else◌};
ghost use Rattle.wire.specs.Bytes.{bytes};
ghost use Rattle.wire.specs.Layout.{bth, reth, immediate_data, aeth};
ghost use Rattle.wire.specs.Header.{put, is_out_of_range, refused as refused_by, write_of};
ghost use Rattle.wire.specs.Inner.Out.{filled, Adds, spelled};

use crate::opcode::Carries;
use crate::{HEADER_BYTES, Header, Written};
use psn::Psn;
use refusal::Refusal;

// The bytes written so far, with zeros after them. It goes by value from field to field: there is no heap, and so no Vec.
#[derive(Clone, Copy)]
struct Out {
    bytes: [u8; HEADER_BYTES],
    at: usize,
}

// A number's low 24 bits, for which the library has no type.
fn three(value: u32) -> [u8; 3]
    ensures { result ≡ bytes 3 value }
{
    let [_, high, middle, low] = value.to_be_bytes();
    [high, middle, low]
}

impl Out {
    fn new() -> Out
        ensures { result ≡ filled [] }
    {
        Out {
            bytes: [0; HEADER_BYTES],
            at: 0,
        }
    }

    // The bytes go where the header has room for them.
    fn put(mut self, field: &[u8]) -> Out
        ensures { Adds self result field.now }
    {
        let at = self.at;
        if field.len() <= HEADER_BYTES && at <= HEADER_BYTES - field.len() {
            let end = at + field.len();
            self.bytes[at..end].copy_from_slice(field);
            self.at = end;
        }
        self
    }

    fn byte(self, value: u8) -> Out
        ensures { Adds self result (bytes 1 value) }
    {
        self.put(&[value])
    }
}

impl Out {
    fn bth(self, h: Header) -> Out
        ensures { Adds self result (spelled (put h) bth) }
    {
        let out = self.byte(h.opcode).byte(128 + h.pad % 4 * 16);
        let out = out.put(&h.pkey.to_be_bytes()).byte(0).put(&three(h.far));
        out.byte(128).put(&three(h.psn))
    }

    // One that is not `carried`, as the opcode says, adds nothing: three tests in `write` would be no plainer.
    fn reth(self, carried: bool, h: Header) -> Out
        ensures { Adds self result (spelled (put h) (if carried then reth else [])) }
    {
        if !carried {
            return self;
        }
        let out = self.put(&h.address.to_be_bytes());
        out.put(&h.key.to_be_bytes()).put(&h.length.to_be_bytes())
    }

    fn immediate(self, carried: bool, h: Header) -> Out
        ensures { Adds self result (spelled (put h) (if carried then immediate_data else [])) }
    {
        if carried {
            self.put(&h.value.to_be_bytes())
        } else {
            self
        }
    }

    fn aeth(self, carried: bool, h: Header) -> Out
        ensures { Adds self result (spelled (put h) (if carried then aeth else [])) }
    {
        if carried {
            self.byte(h.syndrome).put(&three(h.msn))
        } else {
            self
        }
    }
}

// Far pair and MSN are 24 bits wide.
const LIMIT: u32 = 1 << 24;

fn is_out_of_range(h: Header) -> bool
    ensures { result ≡ is_out_of_range h }
{
    h.pad > 3 || h.far >= LIMIT || h.psn >= Psn::COUNT || h.msn >= LIMIT
}

fn refused(refusal: Refusal) -> Written
    ensures { result ≡ refused_by refusal }
{
    let bytes = [0; HEADER_BYTES];
    Written {
        size: Err(refusal),
        bytes,
    }
}

pub fn write(h: Header) -> Written
    ensures { result ≡ write_of h }
{
    if is_out_of_range(h) {
        return refused(Refusal::Range);
    }
    let Some(carries) = Carries::of(h.opcode) else {
        return refused(Refusal::Opcode);
    };
    let out = Out::new().bth(h).reth(carries.reth, h);
    let out = out.immediate(carries.immediate, h).aeth(carries.aeth, h);
    // An array is read out of a struct before it goes into another.
    let bytes = out.bytes;
    Written {
        size: Ok(carries.length),
        bytes,
    }
}

// A header's fields as the trace has them: numbers of 64 bits, in a row.
ghost use Rattle.std.specs.Prelude.{◌≡◌, Some, None, if◌then◌else◌};
ghost use Rattle.answers.specs.Headers.{within, widest, header_of, fields_of};

use wire::{Frame, Header};

// As they are printed.
pub(crate) fn fields_of(f: Frame) -> [u64; 13]
    ensures { result ≡ fields_of f.header f.length f.payload }
{
    let h = f.header;
    [
        u64::from(h.opcode),
        u64::from(h.pad),
        u64::from(h.pkey),
        u64::from(h.far),
        u64::from(h.psn),
        h.address,
        u64::from(h.key),
        u64::from(h.length),
        u64::from(h.value),
        u64::from(h.syndrome),
        u64::from(h.msn),
        u64::from(f.length),
        f.payload as u64,
    ]
}

// As `write` gives them, where each has room in its field.
#[tactic(auto, unfolding(crate::specs::Headers::within))]
pub(crate) fn header_of(a: &[u64; 11]) -> Option<Header>
    ensures { result ≡ (if within 0 a.now widest then Some (header_of a.now) else None) }
{
    Some(Header {
        opcode: u8::try_from(a[0]).ok()?,
        pad: u8::try_from(a[1]).ok()?,
        pkey: u16::try_from(a[2]).ok()?,
        far: u32::try_from(a[3]).ok()?,
        psn: u32::try_from(a[4]).ok()?,
        address: a[5],
        key: u32::try_from(a[6]).ok()?,
        length: u32::try_from(a[7]).ok()?,
        value: u32::try_from(a[8]).ok()?,
        syndrome: u8::try_from(a[9]).ok()?,
        msn: u32::try_from(a[10]).ok()?,
    })
}

// The reader: any bytes to the fields of their headers.
ghost use Rattle.std.specs.Prelude.{◌≡◌, not, ◌+◌, ◌≤◌, slice_index};
ghost use Rattle.wire.specs.Bytes.{number};
ghost use Rattle.wire.specs.Inner.Seen.{seen, count, bth_in, reth_in, immediate_in, aeth_in, header_in};
ghost use Rattle.wire.specs.Frame.{is_bad_rest, read_of};

use crate::opcode::{BTH, Carries, IMMEDIATE, RETH};
use crate::{Frame, Header};
use refusal::Refusal;

// Where a header's fields begin, from the header's start.
const PKEY_AT: usize = 2;

const FAR_AT: usize = 5;

const PSN_AT: usize = 9;

const BTH_BYTES: usize = BTH as usize;

const KEY_AT: usize = 8;

const LENGTH_AT: usize = 12;

const RETH_BYTES: usize = RETH as usize;

const IMMEDIATE_BYTES: usize = IMMEDIATE as usize;

const MSN_AT: usize = 1;

#[derive(Clone, Copy)]
struct Bth {
    opcode: u8,
    pad: u8,
    version: u8,
    pkey: u16,
    far: u32,
    psn: u32,
}

#[derive(Clone, Copy, Default)]
struct Reth {
    address: u64,
    key: u32,
    length: u32,
}

#[derive(Clone, Copy, Default)]
struct Aeth {
    syndrome: u8,
    msn: u32,
}

// What lies past a frame's end reads as 0.
fn byte(s: &[u8], at: usize) -> u8
    ensures { result ≡ slice_index s.now at }
{
    s.get(at).copied().unwrap_or(0)
}

fn bytes_at<const N: usize>(s: &[u8], at: usize) -> [u8; N]
    requires { at ≤ 64 }
    ensures { result ≡ seen s.now at N }
{
    let mut field = [0; N];
    for (i, slot) in field.iter_mut().enumerate() {
        *slot = byte(s, at + i);
    }
    field
}

// The library has no number of 24 bits.
fn three(s: &[u8], at: usize) -> u32
    requires { at ≤ 64 }
    ensures { result ≡ number (seen s.now at 3) }
{
    let [high, middle, low] = bytes_at::<3>(s, at);
    u32::from_be_bytes([0, high, middle, low])
}

fn read_bth(s: &[u8]) -> Bth
    ensures { result ≡ bth_in s.now }
{
    let [opcode, flags] = bytes_at::<2>(s, 0);
    Bth {
        opcode,
        pad: flags / 16 % 4,
        version: flags % 16,
        pkey: u16::from_be_bytes(bytes_at(s, PKEY_AT)),
        far: three(s, FAR_AT),
        psn: three(s, PSN_AT),
    }
}

// `carried` is the opcode's word on a header: one that is not carried reads as zeros, so nothing is missing and no Option is made.
fn read_reth(s: &[u8], at: usize, carried: bool) -> Reth
    requires { at ≤ 28 }
    ensures { result ≡ reth_in s.now at carried }
{
    if !carried {
        return Reth::default();
    }
    Reth {
        address: u64::from_be_bytes(bytes_at(s, at)),
        key: u32::from_be_bytes(bytes_at(s, at + KEY_AT)),
        length: u32::from_be_bytes(bytes_at(s, at + LENGTH_AT)),
    }
}

fn read_immediate(s: &[u8], at: usize, carried: bool) -> u32
    requires { at ≤ 28 }
    ensures { result ≡ immediate_in s.now at carried }
{
    if carried {
        u32::from_be_bytes(bytes_at(s, at))
    } else {
        0
    }
}

fn read_aeth(s: &[u8], at: usize, carried: bool) -> Aeth
    requires { at ≤ 32 }
    ensures { result ≡ aeth_in s.now at carried }
{
    if !carried {
        return Aeth::default();
    }
    Aeth {
        syndrome: byte(s, at),
        msn: three(s, at + MSN_AT),
    }
}

// The place after a header that may be carried: one that is not has no bytes, so nothing is missing and no Option is made.
fn after(at: usize, carried: bool, bytes: usize) -> usize
    requires { (at ≤ 64) × (bytes ≤ 64) }
    ensures { result ≡ at + count carried bytes }
{
    if carried { at + bytes } else { at }
}

fn header(s: &[u8], bth: Bth, carries: Carries) -> Header
    ensures { result ≡ header_in s.now bth carries }
{
    let reth = read_reth(s, BTH_BYTES, carries.reth);
    let at = after(BTH_BYTES, carries.reth, RETH_BYTES);
    let value = read_immediate(s, at, carries.immediate);
    let aeth = read_aeth(
        s,
        after(at, carries.immediate, IMMEDIATE_BYTES),
        carries.aeth,
    );
    Header {
        opcode: bth.opcode,
        pad: bth.pad,
        pkey: bth.pkey,
        far: bth.far,
        psn: bth.psn,
        address: reth.address,
        key: reth.key,
        length: reth.length,
        value,
        syndrome: aeth.syndrome,
        msn: aeth.msn,
    }
}

// What follows the headers is no payload with its pad.
fn is_bad_rest(rest: usize, pad: u8, payload: bool) -> bool
    ensures { result ≡ is_bad_rest rest pad (not payload) }
{
    rest % 4 != 0 || rest < usize::from(pad) || (!payload && rest > 0)
}

pub fn read(frame: &[u8]) -> Result<Frame, Refusal>
    ensures { result ≡ read_of frame.now }
{
    if frame.len() < BTH_BYTES {
        return Err(Refusal::Short);
    }
    let bth = read_bth(frame);
    let Some(carries) = Carries::of(bth.opcode) else {
        return Err(Refusal::Opcode);
    };
    let length = carries.length as usize;
    if frame.len() < length {
        return Err(Refusal::Short);
    }
    if bth.version != 0 {
        return Err(Refusal::Version);
    }
    let rest = frame.len() - length;
    if is_bad_rest(rest, bth.pad, carries.payload) {
        return Err(Refusal::Rest);
    }
    Ok(Frame {
        header: header(frame, bth, carries),
        length: carries.length,
        payload: rest - usize::from(bth.pad),
    })
}

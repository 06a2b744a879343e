// What each opcode carries, read by the writer, the reader and the engine:
// Send First 0, Middle 1, Last 2, Last with immediate 3, Only 4, Only with immediate 5; Write 6 to 11 alike;
// Read Request 12; Read Response First 13, Middle 14, Last 15, Only 16; Acknowledge 17.
// Numbers and no enum: `opcode_at` computes them, and a host may lend any.
ghost use Rattle.std.specs.Prelude.{◌≡◌, ◌/◌};
ghost use Rattle.wire.specs.Bytes.{octet};
ghost use Rattle.wire.specs.Layout.{size};
ghost use Rattle.wire.specs.Opcodes.{has_reth, has_immediate, has_aeth, is_bare, is_first, is_last, joined, carries_of};

// The bytes of each header.
pub(crate) const BTH: u32 = 12;

pub(crate) const RETH: u32 = 16;

pub(crate) const IMMEDIATE: u32 = 4;

const AETH: u32 = 4;

#[derive(Clone, Copy, Debug, PartialEq, Eq)]
pub struct Carries {
    // All headers together, in bytes.
    pub length: u32,
    pub reth: bool,
    pub immediate: bool,
    pub aeth: bool,
    pub payload: bool,
    pub first: bool,
    pub last: bool,
    pub request: bool,
    pub answer: bool,
}

// Of any number, since a post's split computes opcodes in 64 bits.
pub fn has_reth(opcode: u64) -> bool
    ensures { result ≡ has_reth opcode }
{
    matches!(opcode, 6 | 10 | 11 | 12)
}

pub fn has_immediate(opcode: u64) -> bool
    ensures { result ≡ has_immediate opcode }
{
    matches!(opcode, 3 | 5 | 9 | 11)
}

fn has_aeth(opcode: u64) -> bool
    ensures { result ≡ has_aeth opcode }
{
    matches!(opcode, 13 | 15 | 16 | 17)
}

fn is_bare(opcode: u64) -> bool
    ensures { result ≡ is_bare opcode }
{
    matches!(opcode, 12 | 17)
}

fn is_first(opcode: u64) -> bool
    ensures { result ≡ is_first opcode }
{
    matches!(opcode, 0 | 4 | 5 | 6 | 10 | 11 | 12 | 13 | 16 | 17)
}

pub fn is_last(opcode: u64) -> bool
    ensures { result ≡ is_last opcode }
{
    matches!(opcode, 2 | 3 | 4 | 5 | 8 | 9 | 10 | 11 | 12 | 15 | 16 | 17)
}

fn length(reth: bool, immediate: bool, aeth: bool) -> u32
    ensures { result ≡ size (joined reth immediate aeth) / octet }
{
    BTH + u32::from(reth) * RETH + u32::from(immediate) * IMMEDIATE + u32::from(aeth) * AETH
}

impl Carries {
    // None where the opcode is not known.
    pub fn of(opcode: u8) -> Option<Carries>
        ensures { result ≡ carries_of opcode }
    {
        if opcode > 17 {
            return None;
        }
        let op = u64::from(opcode);
        let reth = has_reth(op);
        let immediate = has_immediate(op);
        let aeth = has_aeth(op);
        let request = op <= 12;
        Some(Carries {
            length: length(reth, immediate, aeth),
            reth,
            immediate,
            aeth,
            payload: !is_bare(op),
            first: is_first(op),
            last: is_last(op),
            request,
            answer: !request,
        })
    }
}

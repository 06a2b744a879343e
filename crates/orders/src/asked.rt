// What a line asks of the card.
ghost use Rattle.std.specs.Prelude.{◌≡◌};
ghost use Rattle.orders.specs.Ordered.{order_of, ask_of, settings_of, post_of, post_wide, cut_if};
ghost use Rattle.orders.specs.Ordered.{cut as Ordered·cut};

use crate::Order;
use rules::{Post, Settings};
use text::{Ask, parse};

const LARGEST: u64 = u32::MAX as u64;

// A number in 32 bits: the largest of them where it is wider. No Option: a number too wide must be refused in its own place in the order (`wide-refused`).
fn cut(n: u64) -> u32
    ensures { result ≡ Ordered·cut n }
{
    u32::try_from(n).unwrap_or(u32::MAX)
}

// No Option, as in `cut`.
fn cut_if(wide: bool, n: u64) -> u32
    ensures { result ≡ cut_if wide n }
{
    if wide { u32::MAX } else { cut(n) }
}

fn settings_of(a: &[u64; 11]) -> Settings
    ensures { result ≡ settings_of a.now }
{
    Settings {
        far: cut(a[1]),
        pkey: cut(a[3]),
        pmtu: cut(a[4]),
        share: cut(a[5]),
        ceiling: cut(a[6]),
        retry: cut(a[7]),
        rnr: cut(a[8]),
        timeout: cut(a[9]),
    }
}

// One that may be any 32 bits is wider, or a flag is neither 0 nor 1.
fn post_wide(a: &[u64; 11]) -> bool
    ensures { result ≡ post_wide a.now }
{
    a[1] > LARGEST || a[3] > 1 || a[3] == 1 && a[4] > LARGEST || a[5] > 1 || a[9] > LARGEST
}

fn post_of(a: &[u64; 11]) -> Post
    ensures { result ≡ post_of a.now }
{
    Post {
        kind: cut_if(post_wide(a), a[2]),
        immediate: a[3] == 1,
        fenced: a[5] == 1,
        ticket: cut(a[1]),
        offset: a[7],
        length: cut(a[6]),
        address: a[8],
        key: cut(a[9]),
        value: if a[3] == 1 { cut(a[4]) } else { 0 },
    }
}

// What a call asks of its pair; none where the line asks nothing of a pair.
#[tactic(auto, using(crate::proofs::Rest::no_call))]
fn ask_of(what: Ask, a: &[u64; 11]) -> Option<engine::Ask>
    ensures { result ≡ ask_of what a.now }
{
    Some(match what {
        Ask::Open => engine::Ask::Open {
            settings: settings_of(a),
            first: cut(a[2]),
        },
        Ask::Post => engine::Ask::Post { post: post_of(a) },
        Ask::Emit => engine::Ask::Emit { budget: cut(a[1]) },
        Ask::Ack => engine::Ask::Acknowledge {
            psn: cut(a[1]),
            syndrome: cut(a[2]),
        },
        Ask::Response => engine::Ask::Respond {
            psn: cut_if(a[3] > LARGEST, a[1]),
            opcode: cut(a[2]),
            length: cut(a[3]),
        },
        Ask::Timer => engine::Ask::Tick { elapsed: a[1] },
        Ask::Close => engine::Ask::Close,
        _ => return None,
    })
}

#[tactic(auto, unfolding(crate::specs::Ordered::order_of))]
pub fn order_of(line: &[u8]) -> Order
    ensures { result ≡ order_of line.now }
{
    let p = parse(line);
    Order {
        what: p.ask,
        pair: cut(p.args[0]),
        ask: ask_of(p.ask, &p.args),
        bytes: p.args[0] as usize,
        numbers: p.args[1] as usize,
    }
}

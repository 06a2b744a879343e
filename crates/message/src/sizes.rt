// How many packets, PSNs and slots a message takes, and how long each packet and a pair's timeout are.
ghost use Rattle.std.specs.Prelude.{◌≡◌, ◌+◌, ◌^◌, ◌≤◌};
ghost use Rattle.rules.specs.Message.{pmtu, packets_for, asks_read, psns_for, slots_for, length_at};
ghost use Rattle.rules.specs.Timer.{timeout_of};
ghost use Rattle.message.specs.Capped.{capped};

use rules::{Post, Settings};

// The bytes that a PMTU code stands for.
pub fn mtu(s: Settings) -> u32
    ensures { (result ≡ pmtu (capped s)) × (128 ≤ result) × (result ≤ 4096) }
{
    128 << s.pmtu.min(5)
}

// The PMTU is 2 to this.
#[tactic(auto, unfolding(crate::specs::Capped::capped))]
fn width(s: Settings) -> u32
    ensures { (result ≡ 7 + (capped s).pmtu) × (result ≤ 12) }
{
    7 + s.pmtu.min(5)
}

// Rounded up, by a shift: a division would cost more than the rest of what looks at a packet.
// That a count is 1 to 2^25 is said by each that tells one: a type of its own would be taken apart at every sum.
fn parts(mtu: u32, width: u32, len: u32) -> u32
    requires { (mtu ≡ 2 ^ width) × (128 ≤ mtu) × (mtu ≤ 4096) × (width ≤ 12) }
    ensures { (result ≡ packets_for mtu len) × (1 ≤ result) × (result ≤ 33554432) }
{
    if len == 0 {
        1
    } else {
        ((u64::from(len) + (u64::from(mtu) - 1)) >> width) as u32
    }
}

pub fn packets_for(s: Settings, len: u32) -> u32
    ensures { (result ≡ packets_for (pmtu (capped s)) len) × (1 ≤ result) × (result ≤ 33554432) }
{
    parts(mtu(s), width(s), len)
}

pub(crate) fn asks_read(m: Post) -> bool
    ensures { result ≡ asks_read m }
{
    m.kind == 2
}

pub fn psns_for(s: Settings, m: Post) -> u32
    ensures { (result ≡ psns_for (capped s) m) × (1 ≤ result) × (result ≤ 33554432) }
{
    packets_for(s, m.length)
}

pub fn slots_for(s: Settings, m: Post) -> u32
    ensures { (result ≡ slots_for (capped s) m) × (1 ≤ result) × (result ≤ 33554432) }
{
    if asks_read(m) { 1 } else { psns_for(s, m) }
}

// The bytes of the packet at place i of n.
pub fn length_at(s: Settings, len: u32, n: u32, i: u32) -> u32
    ensures { result ≡ length_at (pmtu (capped s)) len n i }
{
    let size = mtu(s);
    if u64::from(i) + 1 == u64::from(n) {
        let ahead = u64::from(i) * u64::from(size);
        u64::from(len).saturating_sub(ahead) as u32
    } else {
        size
    }
}

// In ns.
pub fn timeout(s: Settings) -> u64
    ensures { (result ≡ timeout_of (capped s)) × (result ≤ 2 ^ 43) }
{
    4096 << s.timeout.min(31)
}

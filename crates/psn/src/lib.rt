// The packet number: 24 bits that run around. Its width, its count and its order belong to it, and
// no other crate takes a remainder by 16,777,216.
#![tactic(auto)]

ghost use Rattle.std.specs.Prelude.{◌≡◌};
ghost use Rattle.psn.specs.Psn.{distance, plus, next, before};

// Records hold a packet number as a plain 32-bit number, since a host may lend any bytes: every
// function takes any such number and counts modulo 2^24.
#[derive(Clone, Copy)]
pub struct Psn;

impl Psn {
    pub const WIDTH: u32 = 24;

    pub const COUNT: u32 = 16_777_216;
    // As far as N may lie from U.
    pub const HALF: u32 = 8_388_607;

    // How far it is from `from` up to `to`.
    pub fn distance(from: u32, to: u32) -> u32
        ensures { result ≡ distance from to }
    {
        (to % Psn::COUNT + (Psn::COUNT - from % Psn::COUNT)) % Psn::COUNT
    }

    // The number `steps` after `psn`.
    pub fn plus(psn: u32, steps: u32) -> u32
        ensures { result ≡ plus psn steps }
    {
        (psn % Psn::COUNT + steps % Psn::COUNT) % Psn::COUNT
    }

    pub fn next(psn: u32) -> u32
        ensures { result ≡ next psn }
    {
        Psn::plus(psn, 1)
    }

    // Is `a` before `b`, seen from `from`?
    pub fn before(from: u32, a: u32, b: u32) -> bool
        ensures { result ≡ before from a b }
    {
        Psn::distance(from, a) < Psn::distance(from, b)
    }
}

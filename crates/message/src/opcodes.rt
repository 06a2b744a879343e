// The opcode of each place of a message.
ghost use Rattle.std.specs.Prelude.{◌≡◌, ◌≤◌};
ghost use Rattle.rules.specs.Message.{opcode_at};

use rules::Post;

// The opcode at place i of n.
pub fn opcode_at(m: Post, n: u32, i: u32) -> u64
    ensures { (result ≡ opcode_at m n i) × (result ≤ 25769803775) }
{
    let late = u64::from(m.immediate);
    let place = if n == 1 {
        4 + late
    } else if u64::from(i) + 1 == u64::from(n) {
        2 + late
    } else {
        u64::from(i != 0)
    };
    6 * u64::from(m.kind) + place
}

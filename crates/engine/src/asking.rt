// Which of the two lent buffers a call asks for.
ghost use Rattle.std.specs.Prelude.{◌≡◌};
ghost use Rattle.engine.specs.Asked.{lent_of};

use crate::Ask;

// Of their lengths the one that counts: bytes for an emission, numbers for the others.
pub fn lent_to(ask: Ask, numbers: usize, bytes: usize) -> usize
    ensures { result ≡ lent_of ask numbers bytes }
{
    match ask {
        Ask::Emit { .. } => bytes,
        _ => numbers,
    }
}

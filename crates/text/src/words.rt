// Words separated by spaces or tabs.
ghost use Rattle.std.specs.Prelude.{◌≡◌, [], ◌∷◌, get_or, take, not, position, MatchOption};
ghost use Rattle.text.specs.Words.{blank, words};

fn is_blank(b: u8) -> bool
    ensures { result ≡ blank b }
{
    matches!(b, b' ' | b'\t')
}

// Apart from `next_word`, since a search that a `?` follows is known by its contract alone.
fn word_start(line: &[u8]) -> Option<usize>
    ensures { result ≡ position (λ b. not (blank b)) line.now }
{
    line.iter().position(|b| !is_blank(*b))
}

fn word_end(line: &[u8]) -> Option<usize>
    ensures { result ≡ position (λ b. blank b) line.now }
{
    line.iter().position(|b| is_blank(*b))
}

// The first word, and what stands behind it; none where there are blanks alone.
pub(crate) fn next_word(line: &[u8]) -> Option<(&[u8], &[u8])>
    ensures { MatchOption result (words line.now ≡ []) (λ p. words line.now ≡ p.0.now ∷ words p.1.now) }
{
    let rest = &line[word_start(line)?..];
    Some(rest.split_at(word_end(rest).unwrap_or(rest.len())))
}

// The line's second word, which is a call's first argument; empty where there is none.
pub fn argument(line: &[u8]) -> &[u8]
    ensures { result.now ≡ get_or (words line.now) 1 [] }
{
    if let Some((_, rest)) = next_word(line)
        && let Some((word, _)) = next_word(rest)
    {
        word
    } else {
        &line[..0]
    }
}

// The first `n` bytes, or all where there are fewer.
pub fn front(s: &[u8], n: usize) -> &[u8]
    ensures { result.now ≡ take n s.now }
{
    s.get(..n).unwrap_or(s)
}

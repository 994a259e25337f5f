// Bytes written into a text: each call writes from a place on, and gives the place behind. What passes the text's end is left out.
ghost use Rattle.std.specs.Prelude.{ℕ, List, [], ◌∷◌};
ghost use Rattle.lines.specs.Fields.{each_as};
ghost use Rattle.lines.specs.Wrote.{Wrote};

pub fn letter(text: &mut [u8], at: usize, byte: u8) -> usize
    ensures { Wrote text.old text.new at result (byte ∷ []) }
{
    if text.len() <= at {
        return at;
    }
    text[at] = byte;
    at + 1
}

// Bytes, each written as `write` writes one.
pub fn each<F: Fn(&mut [u8], usize, u8) -> usize>(
    text: &mut [u8],
    at: usize,
    bytes: &[u8],
    write: F,
) -> usize
    ghost words: { ℕ → List ℕ }
    requires callable { F.IsAlwaysCallable write }
    requires writes { (from : _) (at : _) (byte : _) (end : _) (to : _) → F.post write from at byte end to
        → Wrote from.now to.now at end (words byte) }
    ensures { Wrote text.old text.new at result (each_as words bytes.now) }
{
    let mut end = at;
    for byte in bytes {
        end = write(text, end, *byte);
    }
    end
}

pub fn say(text: &mut [u8], at: usize, words: &[u8]) -> usize
    ensures { Wrote text.old text.new at result words.now }
{
    each(text, at, words, letter)
}

// A budget, as a person writes it.
ghost use Rattle.std.specs.Prelude.{◌≡◌};
ghost use Rattle.lamp.specs.Budget.{budget_of};

// The last of the digits.
const NINE: u8 = b'9';

// So many steps; none where a word is no such number.
pub fn budget_of(word: &[u8]) -> Option<u32>
    ensures { result ≡ budget_of word.now }
{
    if word.is_empty() {
        return None;
    }
    let mut sum: u32 = 0;
    for b in word {
        if *b < b'0' || NINE < *b {
            return None;
        }
        sum = sum.checked_mul(10)?.checked_add(u32::from(*b - b'0'))?;
    }
    Some(sum)
}

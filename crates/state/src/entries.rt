// What stands at a place of one of a state's arrays.
ghost use Rattle.std.specs.Prelude.{◌≡◌, false, get_or};

// An entry, and past the array's end what is said beside.
pub(crate) fn entry_or<T: Copy + Drop>(entries: &[T], at: usize, none: T) -> T
    ensures { result ≡ get_or entries.now at none }
{
    entries.get(at).copied().unwrap_or(none)
}

pub fn entry(cells: &[u32], at: usize) -> u32
    ensures { result ≡ get_or cells.now at 0 }
{
    entry_or(cells, at, 0)
}

pub fn wide_at(wides: &[bool], at: usize) -> bool
    ensures { result ≡ get_or wides.now at false }
{
    entry_or(wides, at, false)
}

pub fn kind_byte(kinds: &[u8], at: usize) -> u8
    ensures { result ≡ get_or kinds.now at 0 }
{
    entry_or(kinds, at, 0)
}

// Where a range of addresses lies.
ghost use Rattle.std.specs.Prelude.{◌≡◌};
ghost use Rattle.memory.specs.Window.{window_of, resolve_of, lies as window_lies};

use std::cmp::min;

pub const ROM_BASE: u32 = 0x1000_0000;

pub const WORK_BASE: u32 = 0x2000_0000;

// The window that holds a range, with the byte at which the range starts there.
#[derive(Clone, Copy)]
pub enum Window {
    Rom(u32),
    Work(u32),
    Nowhere,
}

// Whether a range lies in a window of `size` bytes, its end included.
pub fn lies(base: u32, size: usize, address: u32, count: u32) -> bool
    ensures { result ≡ window_lies base size address count }
{
    if address < base {
        return false;
    }
    // counted from the base, so that no sum wraps whatever the size
    let start = (address - base) as usize;
    start + (count as usize) <= size
}

// The window of a range, of a ROM window and a work window of these sizes.
pub fn window_of(rom: usize, work: usize, address: u32, count: u32) -> Window
    ensures { result ≡ window_of rom work address count }
{
    if lies(ROM_BASE, rom, address, count) {
        return Window::Rom(address - ROM_BASE);
    }
    if lies(WORK_BASE, work, address, count) {
        return Window::Work(address - WORK_BASE);
    }
    Window::Nowhere
}

// The bytes of a range, a part of the ROM or of work memory; none where it lies in no window. The ROM window ends with the program, whose
// length is `size`.
pub fn resolve<'a>(rom: &'a [u8], work: &'a [u8], size: u32, address: u32, count: u32) -> &'a [u8]
    ensures { result.now ≡ resolve_of rom.now work.now size address count }
{
    let n = count as usize;
    match window_of(min(size as usize, rom.len()), work.len(), address, count) {
        Window::Rom(start) => {
            let k = start as usize;
            &rom[k..k + n]
        }
        Window::Work(start) => {
            let k = start as usize;
            &work[k..k + n]
        }
        Window::Nowhere => &rom[..0],
    }
}

// A place's cell: 0 where no token was met, else one more than the data height, and 256 times the return height. Its low byte is the mark.
// No other file packs or unpacks one.
ghost use Rattle.std.specs.Prelude.{◌≡◌, ◌+◌, ◌<◌};
ghost use Rattle.screen.specs.Laws.Found.Cell.{heights, cell_with, height_in, back_in, mark_in, moved_cell};

use crate::limits::ENTERED;

// A token start of a body that is being walked, not met so far.
pub const UNMET: u32 = 0x8000;

// The cells that a program and a body start with: no return cells, and a data height of 0, or that which a body is walked from.
pub const FIRST_CELL: u32 = 1;

pub const ENTRY_CELL: u32 = ENTERED + 1;

// The data height of a cell.
pub fn height_in(cell: u32) -> u32
    ensures { (result ≡ height_in cell) × (result < 255) }
{
    (cell % 256).saturating_sub(1)
}

// Its return height.
pub fn back_in(cell: u32) -> u32
    ensures { (result ≡ back_in cell) × (result < 0x100_0000) }
{
    cell / 256
}

// Its mark.
pub fn mark_in(cell: u32) -> u8
    ensures { result ≡ mark_in cell }
{
    (cell % 256) as u8
}

// The cell of two heights.
pub fn cell_of(height: u32, back: u32) -> u32
    requires { (height < 255) × (back < 0x100_0000) }
    ensures { result ≡ cell_with (heights height back) }
{
    1 + height + 256 * back
}

// The same with the data height so much higher, and then so much lower.
pub fn moved(cell: u32, up: u32, down: u32) -> u32
    requires { cell + up < 0x1_0000_0000 }
    ensures { result ≡ moved_cell up down cell }
{
    (cell + up).saturating_sub(down)
}

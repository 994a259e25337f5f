// Cells and bytes of the two windows.
ghost use Rattle.std.specs.Prelude.{◌≡◌};
ghost use Rattle.rom.specs.Refusal.{numbered, refusal_in};
ghost use Rattle.memory.specs.Cells.{fetch_cell_of, fetch_byte_of, cell_refusal, byte_refusal, cell_stored, byte_stored};

use crate::window::{WORK_BASE, lies, resolve};
use crate::writing::{put, write_cell};
use rom::{Refusal, byte, word32};

// The range is in no window where fewer bytes than asked for are there.
pub fn fetch_cell<'a>(
    rom: &'a [u8],
    work: &'a [u8],
    size: u32,
    address: u32,
) -> Result<u32, Refusal>
    ensures { numbered result ≡ fetch_cell_of rom.now work.now size address }
{
    let part = resolve(rom, work, size, address, 4);
    if part.len() < 4 {
        return Err(Refusal::NoWindow);
    }
    if address % 4 != 0 {
        return Err(Refusal::NotAligned);
    }
    Ok(word32(part, 0))
}

pub fn fetch_byte<'a>(
    rom: &'a [u8],
    work: &'a [u8],
    size: u32,
    address: u32,
) -> Result<u32, Refusal>
    ensures { numbered result ≡ fetch_byte_of rom.now work.now size address }
{
    let part = resolve(rom, work, size, address, 1);
    if part.is_empty() {
        return Err(Refusal::NoWindow);
    }
    Ok(u32::from(byte(part, 0)))
}

// Stores a cell in work memory, or says why not.
pub fn store_cell(work: &mut [u8], address: u32, cell: u32) -> Result<(), Refusal>
    ensures { (refusal_in result ≡ cell_refusal work.old address) × (work.new ≡ cell_stored work.old address cell) }
{
    if !lies(WORK_BASE, work.len(), address, 4) {
        return Err(Refusal::NoWindow);
    }
    if address % 4 != 0 {
        return Err(Refusal::NotAligned);
    }
    write_cell(work, address - WORK_BASE, cell);
    Ok(())
}

// Stores the low 8 bits of a cell.
pub fn store_byte(work: &mut [u8], address: u32, cell: u32) -> Result<(), Refusal>
    ensures { (refusal_in result ≡ byte_refusal work.old address) × (work.new ≡ byte_stored work.old address cell) }
{
    if !lies(WORK_BASE, work.len(), address, 1) {
        return Err(Refusal::NoWindow);
    }
    let k = (address - WORK_BASE) as usize;
    put(work, k, (cell % 256) as u8);
    Ok(())
}

// The house sizes of documents 01 and 02, the first place of a program, which stands behind the header, and the size of a listing's text.
// specs/Sizes.antt has the same names for the definitions, and `house_sizes` shows that the two agree.
ghost use Rattle.std.specs.Prelude.{◌≡◌};
ghost use Rattle.rom.specs.Sizes.{house as sizes_house};

pub const ROM_LEAST: usize = 8;

pub const ROM_MOST: usize = 65536;

pub const FIRST_PLACE: usize = 8;

pub const DATA_MOST: usize = 64;

pub const RETURN_MOST: usize = 32;

pub const FRAMES_MOST: usize = 16;

pub const NUMBERS_MOST: usize = 256;

pub const NODES_MOST: usize = 32;

pub const PROPERTIES_MOST: usize = 128;

pub const WORK_SIZE: usize = 16384;

pub const STORE_SIZE: usize = 16384;

pub const MARKS_SIZE: usize = 65536;

pub const TEXT_SIZE: usize = 65536;

#[derive(Clone, Copy)]
pub struct House {
    pub rom_least: usize,
    pub rom_most: usize,
    pub first_place: usize,
    pub data_most: usize,
    pub return_most: usize,
    pub frames_most: usize,
    pub numbers_most: usize,
    pub nodes_most: usize,
    pub properties_most: usize,
    pub work_size: usize,
    pub store_size: usize,
    pub marks_size: usize,
    pub text_size: usize,
}

pub fn house_sizes() -> House
    ensures { result ≡ sizes_house }
{
    House {
        rom_least: ROM_LEAST,
        rom_most: ROM_MOST,
        first_place: FIRST_PLACE,
        data_most: DATA_MOST,
        return_most: RETURN_MOST,
        frames_most: FRAMES_MOST,
        numbers_most: NUMBERS_MOST,
        nodes_most: NODES_MOST,
        properties_most: PROPERTIES_MOST,
        work_size: WORK_SIZE,
        store_size: STORE_SIZE,
        marks_size: MARKS_SIZE,
        text_size: TEXT_SIZE,
    }
}

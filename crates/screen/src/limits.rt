// The house sizes in 32 bits, as places and heights are counted here, and the numbers that a body is walked by.
use rom::sizes;

pub const FIRST_PLACE: u32 = sizes::FIRST_PLACE as u32;

pub const ROM_MOST: u32 = sizes::ROM_MOST as u32;

pub const DATA_MOST: u32 = sizes::DATA_MOST as u32;

pub const RETURN_MOST: u32 = sizes::RETURN_MOST as u32;

pub const FRAMES_MOST: u32 = sizes::FRAMES_MOST as u32;

pub const NUMBERS_MOST: u32 = sizes::NUMBERS_MOST as u32;

pub const NODES_MOST: u32 = sizes::NODES_MOST as u32;

// A body is walked from as high as the data stack may rise, so that it can reach as far down and rise as high as any can that is entered
// at its need.
pub const ENTERED: u32 = DATA_MOST;

pub const BODY_MOST: u32 = ENTERED + DATA_MOST;

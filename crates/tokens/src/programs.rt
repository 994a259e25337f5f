// The numbers that a program can define. specs/Table.antt has the same names for the definitions.
pub const FIRST_PROGRAM: u32 = 0x800;

pub const PROGRAMS_MOST: usize = 2048;

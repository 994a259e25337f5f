// The names of the tokens, as the list has them. A name's letters are packed into two numbers, eight into the first and what is left into
// the second, the last letter lowest: a `match` to a number can be one load, where byte strings would be written out at each call.
ghost use Rattle.std.specs.Prelude.{◌≡◌};
ghost use Rattle.tokens.specs.Name.{front_of, rest_of};

// The first eight letters; what is not in the list has none.
pub fn name_front(number: u32) -> u64
    ensures { result ≡ front_of number }
{
    match number {
        0x00 => 0x65_6E_64_30, // end0
        0xFF => 0x65_6E_64_31, // end1
        0x10 => 0x62_28_6C_69_74_29, // b(lit)
        0x12 => 0x62_28_22_29, // b(")
        0x13 => 0x62_62_72_61_6E_63_68, // bbranch
        0x14 => 0x62_3F_62_72_61_6E_63_68, // b?branch
        0x1E => 0x2B, // +
        0x1F => 0x2D, // -
        0x20 => 0x2A, // *
        0x23 => 0x61_6E_64, // and
        0x24 => 0x6F_72, // or
        0x25 => 0x78_6F_72, // xor
        0x26 => 0x69_6E_76_65_72_74, // invert
        0x27 => 0x6C_73_68_69_66_74, // lshift
        0x28 => 0x72_73_68_69_66_74, // rshift
        0x29 => 0x3E_3E_61, // >>a
        0x2B => 0x75_2F_6D_6F_64, // u/mod
        0x2C => 0x6E_65_67_61_74_65, // negate
        0x2D => 0x61_62_73, // abs
        0x2E => 0x6D_69_6E, // min
        0x2F => 0x6D_61_78, // max
        0x30 => 0x3E_72, // >r
        0x31 => 0x72_3E, // r>
        0x32 => 0x72_40, // r@
        0x33 => 0x65_78_69_74, // exit
        0x34 => 0x30_3D, // 0=
        0x35 => 0x30_3C_3E, // 0<>
        0x36 => 0x30_3C, // 0<
        0x37 => 0x30_3C_3D, // 0<=
        0x38 => 0x30_3E, // 0>
        0x39 => 0x30_3E_3D, // 0>=
        0x3A => 0x3C, // <
        0x3B => 0x3E, // >
        0x3C => 0x3D, // =
        0x3D => 0x3C_3E, // <>
        0x3E => 0x75_3E, // u>
        0x3F => 0x75_3C_3D, // u<=
        0x40 => 0x75_3C, // u<
        0x41 => 0x75_3E_3D, // u>=
        0x42 => 0x3E_3D, // >=
        0x43 => 0x3C_3D, // <=
        0x44 => 0x62_65_74_77_65_65_6E, // between
        0x45 => 0x77_69_74_68_69_6E, // within
        0x46 => 0x64_72_6F_70, // drop
        0x47 => 0x64_75_70, // dup
        0x48 => 0x6F_76_65_72, // over
        0x49 => 0x73_77_61_70, // swap
        0x4A => 0x72_6F_74, // rot
        0x4B => 0x2D_72_6F_74, // -rot
        0x4C => 0x74_75_63_6B, // tuck
        0x4D => 0x6E_69_70, // nip
        0x4E => 0x70_69_63_6B, // pick
        0x4F => 0x72_6F_6C_6C, // roll
        0x50 => 0x3F_64_75_70, // ?dup
        0x51 => 0x64_65_70_74_68, // depth
        0x52 => 0x32_64_72_6F_70, // 2drop
        0x53 => 0x32_64_75_70, // 2dup
        0x54 => 0x32_6F_76_65_72, // 2over
        0x55 => 0x32_73_77_61_70, // 2swap
        0x56 => 0x32_72_6F_74, // 2rot
        0x57 => 0x32_2F, // 2/
        0x58 => 0x75_32_2F, // u2/
        0x59 => 0x32_2A, // 2*
        0x6D => 0x40, // @
        0x71 => 0x63_40, // c@
        0x72 => 0x21, // !
        0x75 => 0x63_21, // c!
        0x7B => 0x6E_6F_6F_70, // noop
        0xA4 => 0x2D_31, // -1
        0xA5 => 0x30, // 0
        0xA6 => 0x31, // 1
        0xA7 => 0x32, // 2
        0xA8 => 0x33, // 3
        0xB1 => 0x62_28_3C_6D_61_72_6B_29, // b(<mark)
        0xB2 => 0x62_28_3E_72_65_73_6F_6C, // b(>resolve)
        0xB5 => 0x6E_65_77_2D_74_6F_6B_65, // new-token
        0xB6 => 0x6E_61_6D_65_64_2D_74_6F, // named-token
        0xB7 => 0x62_28_3A_29, // b(:)
        0xB8 => 0x62_28_76_61_6C_75_65_29, // b(value)
        0xB9 => 0x62_28_76_61_72_69_61_62, // b(variable)
        0xBA => 0x62_28_63_6F_6E_73_74_61, // b(constant)
        0xC2 => 0x62_28_3B_29, // b(;)
        0xC3 => 0x62_28_74_6F_29, // b(to)
        0xCA => 0x65_78_74_65_72_6E_61_6C, // external-token
        0xCC => 0x6F_66_66_73_65_74_31_36, // offset16
        0x110 => 0x70_72_6F_70_65_72_74_79, // property
        0x111 => 0x65_6E_63_6F_64_65_2D_69, // encode-int
        0x112 => 0x65_6E_63_6F_64_65_2B, // encode+
        0x114 => 0x65_6E_63_6F_64_65_2D_73, // encode-string
        0x119 => 0x6D_6F_64_65_6C, // model
        0x11A => 0x64_65_76_69_63_65_2D_74, // device-type
        0x11F => 0x6E_65_77_2D_64_65_76_69, // new-device
        0x127 => 0x66_69_6E_69_73_68_2D_64, // finish-device
        0x201 => 0x64_65_76_69_63_65_2D_6E, // device-name
        0x800..=0xFFF => 0x70_72_6F_67_72_61_6D_20, // program number
        _ => 0,
    }
}

// The letters behind those.
pub fn name_rest(number: u32) -> u64
    ensures { result ≡ rest_of number }
{
    match number {
        0xB2 => 0x76_65_29, // b(>resolve)
        0xB5 => 0x6E, // new-token
        0xB6 => 0x6B_65_6E, // named-token
        0xB9 => 0x6C_65_29, // b(variable)
        0xBA => 0x6E_74_29, // b(constant)
        0xCA => 0x2D_74_6F_6B_65_6E, // external-token
        0x111 => 0x6E_74, // encode-int
        0x114 => 0x74_72_69_6E_67, // encode-string
        0x11A => 0x79_70_65, // device-type
        0x11F => 0x63_65, // new-device
        0x127 => 0x65_76_69_63_65, // finish-device
        0x201 => 0x61_6D_65, // device-name
        0x800..=0xFFF => 0x6E_75_6D_62_65_72, // program number
        _ => 0,
    }
}

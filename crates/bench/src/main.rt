// Runs the header test and the decoder over ROMs in hex on standard input, a line each. Behind H a ROM's header is tested; behind T the
// token at each place of its program is shown too, in both offset widths, and the body that would be read from there. Places count FCode
// bytes: a token is decoded of the ROM as it is given, spread or not, and a body is read of its FCode bytes, laid one behind the other.
#![tactic(auto)]

ghost use Rattle.std.specs.Prelude.{◌≤◌, length};

use given::{SPACE, TEXT, bytes_from, each_line, read_text};
use rom::{fcode_count, lay_fcode, program_length, refusal_in, spread_of};
use std::io;
use tokens::{Decoded, Operand, Stop, Token};

fn yes_or_no(said: bool) -> &'static str {
    if said { "yes" } else { "no" }
}

fn show_aim(rt: &impl Print, aim: Option<u32>) -> io::Result<()> {
    match aim {
        Some(to) => print!(rt; " {to:x}"),
        None => print!(rt; " outside"),
    }
}

fn show_operand(rt: &impl Print, operand: Operand) -> io::Result<()> {
    match operand {
        Operand::Nothing => print!(rt; " nothing"),
        Operand::Literal(n) => print!(rt; " literal {n:x}"),
        Operand::Text { start, count } => print!(rt; " text {start:x} {count:x}"),
        Operand::Branch { bits, aim } => {
            print!(rt; " branch {bits:x}")?;
            show_aim(rt, aim)
        }
        Operand::Number(n) => print!(rt; " number {n:x}"),
        Operand::Definition { number, kind } => print!(rt; " definition {number:x} {kind:x}"),
    }
}

// What the list says of a token, and what stands behind it.
fn show_token(rt: &impl Print, token: Token) -> io::Result<()> {
    let code = token.code;
    let operand = token.operand;
    print!(rt;
        " {:x} {:x} {:x} {:x} {:x} {:x} {} {}",
        token.number,
        token.next,
        tokens::takes_of(code),
        tokens::gives_of(code),
        tokens::return_takes_of(code),
        tokens::return_gives_of(code),
        yes_or_no(tokens::out_of_place(code, true)),
        yes_or_no(tokens::out_of_place(code, false)),
    )?;
    show_operand(rt, operand)
}

fn show_decoded(rt: &impl Print, found: Decoded) -> io::Result<()> {
    match found {
        Decoded::Cut => print!(rt; " cut"),
        Decoded::Unlisted(_) => print!(rt; " unlisted"),
        Decoded::Whole(token) => show_token(rt, token),
    }
}

fn show_body(rt: &impl Print, body: Result<u32, Stop>) -> io::Result<()> {
    match body {
        Ok(at) => print!(rt; " ends {at:x}"),
        Err(Stop { at, why }) => print!(rt; " stops {at:x} {:x}", why.number()),
    }
}

// The numbers 800 to 803 are a colon definition, a value, a variable and a constant.
fn some_kinds() -> [u8; 2048] {
    let mut kinds = [0u8; 2048];
    kinds[0] = 0xB7;
    kinds[1] = 0xB8;
    kinds[2] = 0xB9;
    kinds[3] = 0xBA;
    kinds
}

fn show_place(
    rt: &impl Print,
    rom: &[u8],
    fcode: &[u8],
    length: u32,
    wide: bool,
    kinds: &[u8; 2048],
    at: u32,
) -> io::Result<()> {
    print!(rt; " {at:x} {}", yes_or_no(wide))?;
    show_decoded(rt, tokens::decode(rom, spread_of(rom), length, wide, at))?;
    show_body(rt, tokens::read_body(fcode, length, wide, kinds, at))?;
    println!(rt)
}

fn show_places(rt: &impl Print, rom: &[u8], fcode: &[u8]) -> io::Result<()> {
    let length = program_length(rom, spread_of(rom));
    let kinds = some_kinds();
    for at in 8..length {
        show_place(rt, rom, fcode, length, false, &kinds, at)?;
        show_place(rt, rom, fcode, length, true, &kinds, at)?;
    }
    Ok(())
}

// The FCode bytes of a ROM, laid into a room, as many as have room there.
fn laid<'a>(rom: &[u8], room: &'a mut [u8]) -> &'a [u8]
    ensures { length result.now ≤ length room.old }
{
    let spread = spread_of(rom);
    lay_fcode(rom, spread, &mut *room);
    let n = fcode_count(rom, spread).min(room.len());
    &room[..n]
}

fn show_program(rt: &impl Print, rom: &[u8]) -> io::Result<()> {
    let mut room = [0u8; SPACE];
    show_places(rt, rom, laid(rom, &mut room))
}

fn show_rom(rt: &impl Print, rom: &[u8], whole: bool) -> io::Result<()> {
    let verdict = rom::check_header(rom);
    println!(rt; "header {:x}", refusal_in(verdict))?;
    if whole && verdict.is_ok() {
        show_program(rt, rom)?;
    }
    Ok(())
}

// One line: a letter, a space, a ROM.
fn one_line(rt: &impl Print, line: &[u8]) -> io::Result<()> {
    let mut space = [0u8; SPACE];
    let n = bytes_from(line, 2, &mut space);
    show_rom(rt, &space[..n], line.starts_with(b"T"))
}

fn main(rt: HostRuntime) -> io::Result<()> {
    let mut text = [0u8; TEXT];
    let n = read_text(&mut rt.stdin(), &mut text)?;
    each_line(&text[..n], |line| one_line(&rt, line))
}

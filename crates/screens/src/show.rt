// A ROM screened, and what the mark buffer holds then.
use rom::refusal_in;
use std::io;

// What a mark buffer holds before it is screened with.
const OLD: u8 = 0xAA;

// The screen's answer as a number, without what it promises: nothing that is printed rests on a contract.
fn number_of(rom: &[u8], marks: &mut [u8]) -> u32 {
    refusal_in(screen::screen(rom, marks))
}

// Places from one to another that have the same mark: '8:1', or '8-9:1' where they are more than one.
fn show_mark(rt: &impl Print, first: usize, last: usize, mark: u8) -> io::Result<()> {
    if mark == 0 {
        return Ok(());
    }
    if first < last {
        print!(rt; " {first}-{last}:{mark}")
    } else {
        print!(rt; " {first}:{mark}")
    }
}

// A place starts a stretch where the one before it has another mark.
fn show_marks(rt: &impl Print, marks: &[u8]) -> io::Result<()> {
    print!(rt; "marks")?;
    let mut first = 0;
    for place in 1..marks.len() {
        if marks[place] != marks[place - 1] {
            show_mark(rt, first, place - 1, marks[place - 1])?;
            first = place;
        }
    }
    if let Some(mark) = marks.last() {
        show_mark(rt, first, marks.len() - 1, *mark)?;
    }
    println!(rt)
}

fn show_all(rt: &impl Print, rom: &[u8], marks: &mut [u8]) -> io::Result<()> {
    let n = number_of(rom, &mut *marks);
    println!(rt; "screen {n}")?;
    if n == 0 || n == 31 {
        return show_marks(rt, &*marks);
    }
    if marks.iter().all(|mark| *mark == OLD) {
        println!(rt; "unwritten")
    } else {
        println!(rt; "written")
    }
}

// Screens with a mark buffer of a size, 65,537 bytes at most. It is not zero before: the screen zeroes it.
pub fn show_screened(rt: &impl Print, rom: &[u8], size: u32) -> io::Result<()> {
    let mut marks = [OLD; 65537];
    let n = marks.len().min(size as usize);
    show_all(rt, rom, &mut marks[..n])
}

// Screens many times, at least once, and tells the last answer.
pub fn show_last(rt: &impl Print, rom: &[u8], count: u32) -> io::Result<()> {
    let mut marks = [OLD; 65536];
    let mut n = number_of(rom, &mut marks);
    for _ in 1..count {
        n = number_of(rom, &mut marks);
    }
    println!(rt; "screen {n}")
}

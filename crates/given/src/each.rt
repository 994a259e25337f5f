// The lines of a text, one by one.
use std::io;

// Does something with each line of a text, until that fails. A line goes up to its end, or to the end of the text.
pub fn each_line<F: FnMut(&[u8]) -> io::Result<()>>(text: &[u8], mut f: F) -> io::Result<()>
    requires { F.IsAlwaysCallable f }
{
    for line in text.split_inclusive(|c| *c == b'\n') {
        f(line.strip_suffix(b"\n").unwrap_or(line))?;
    }
    Ok(())
}

// The texts: of a ROM that is refused, and of one that passed and was run. One zero stands behind a text, so that C can read it as a
// string; what lies behind that is as it was.
ghost use Rattle.std.specs.Prelude.{◌≡◌};
ghost use Rattle.lines.specs.Told.{told, refused_told, run_told};

use crate::lines::{closing_line, node_lines, refused_line, steps_line};
use crate::words::say;
use rom::sizes::{STORE_SIZE, TEXT_SIZE};
use tree::{Tree, is_whole};

// The one line of a refusal. A text of the wrong size is left as it was, and its length is then 0.
pub fn refused_text(text: &mut [u8], number: u32) -> usize
    ensures { told result text.new ≡ refused_told text.old number }
{
    if text.len() != TEXT_SIZE {
        return 0;
    }
    let end = refused_line(text, 0, number);
    text[end] = 0;
    end
}

// The listing of a run that left this tree and store, carried out so many steps, and ended as the number says, 0 for a finish. A text or
// store of the wrong size, or a damaged tree, leaves the text as it was, and its length is then 0.
pub fn run_text(text: &mut [u8], store: &[u8], tree: Tree, steps: u32, number: u32) -> usize
    ensures { told result text.new ≡ run_told text.old store.now tree steps number }
{
    if text.len() != TEXT_SIZE {
        return 0;
    }
    if store.len() != STORE_SIZE {
        return 0;
    }
    if !is_whole(tree) {
        return 0;
    }
    let at = say(text, 0, b"screen pass\n");
    let at = node_lines(text, at, store, tree);
    let at = steps_line(text, at, steps);
    let at = closing_line(text, at, number);
    text[at] = 0;
    at
}

// The lines of a listing, of a token list, of what explain says and of a scan of many dumps, written into a buffer that is lent for them.
// Every call is total.
#![tactic(auto)]

mod digits;
mod explain;
mod fields;
mod lines;
mod numbers;
mod pieces;
mod printed;
mod tally;
mod telling;
mod verdicts;
mod words;

pub use explain::{
    anyway_line, at_line, header_lines, path_line, program_lines, read_lines, run_line, tree_line,
    verdict_line,
};
pub use numbers::{number_line, words_of};
pub use pieces::{PieceTold, piece_line};
pub use telling::{refused_text, run_text};
pub use verdicts::{
    Counts, Dump, count_line, csv_head, lost_csv, lost_line, scan_csv, scan_line, verdict,
};

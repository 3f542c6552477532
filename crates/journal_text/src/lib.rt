//! The journal of a run, and the text in which a transcript shows its lines. The lines themselves stand
//! in `journal_lines`, and are handed on here.
#![tactic(auto)]

mod digits;
mod fields;
mod groups;
mod journal;
mod lengths;
mod line_copy;
mod line_length;
mod line_list;
mod pieces;
mod text_buffer;
mod words;
mod writing;

pub use fields::{Field, fields_of};
pub use journal::{Journal, PushFault};
pub use journal_lines::{Line, MessageBytes, Refusal};
pub use line_copy::copy_line;
pub use line_length::text_len;
pub use line_list::LineList;
pub use text_buffer::TextBuffer;
pub use writing::{LineText, text};

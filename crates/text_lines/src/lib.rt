//! Lines, fields and numbers of the texts that users write. An input that comes in pieces is taken whole, or cut into lines, each
//! of which is done before the next piece is read. Then what is held grows neither with the input nor with a line.
#![tactic(auto)]

mod blocks;
mod cutter_laws;
mod fields;
mod input;
mod laws;
mod line;
mod line_cutter;
mod lines;
mod number;
mod piece_reader;

pub use cutter_laws::{
    lines_end_behind, lines_held_and_ahead, lines_in_any_cutting, lines_that_end, worked_cuttings,
};
pub use fields::{FieldWalk, Fields, field_at, field_count, is_text};
pub use input::{InputStop, MAX_INPUT, take_input};
pub use laws::{long_line_is_as_its_front, one_spelling, worked_lines, worked_numbers};
pub use line::{clean_text, is_clean, is_long, is_skipped, without_cr};
pub use line_cutter::LineCutter;
pub use lines::first_line_of;
pub use number::number_in;
pub use piece_reader::{LineInput, PieceReader};

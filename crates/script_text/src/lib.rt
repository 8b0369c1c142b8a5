//! What users write and read: script lines and replies.
#![tactic(auto)]

mod depths;
mod laws;
mod line;
mod line_reader;
mod question_reader;
mod reply;
mod reply_fields;
mod reply_numbers;
mod reply_picks;
mod reply_rows;
mod reply_table;
mod reply_terms;
mod reply_view;
mod word;

pub use depths::CutDepths;
pub use group_sum::ViewList;
pub use laws::{
    long_line_says_what_its_front_says, printed_bounds_read_back, values_print_as_quotients,
    worked_lines, worked_refusals, worked_replies,
};
pub use line::{Line, LineFault, Question};
pub use line_reader::read_line;
pub use reply::{Answer, Reply, TableList, append_reply, write_reply};
pub use reply_fields::{append_field, append_number};
pub use reply_numbers::append_exact;
pub use reply_rows::{append_names, append_row};
pub use word::{
    AskWord, IdWord, MeasureTableWord, MeasureWord, RegionWord, RoundsWord, TableWord, ViewWord,
};

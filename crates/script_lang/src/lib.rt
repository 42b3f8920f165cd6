//! The lines of a script: what a line says, and how a step is printed.
#![tactic(auto)]

mod commands;
mod composing;
mod crypt_fields;
mod cutting;
mod digit_fields;
mod entry_rules;
mod fields;
pub mod kinds;
mod lane_fields;
pub mod lane_kinds;
mod lane_reading;
mod laws;
mod line_buffer;
pub mod line_reader;
mod line_rows;
mod name_fields;
mod pin_requests;
mod put_commands;
mod put_fields;
mod put_questions;
mod reading;
mod verb_fields;
mod word_fields;
pub mod writing;

pub use fields::read_number;
pub use kinds::{Line, LineFault};
pub use lane_kinds::{LaneId, LaneLine, LaneStep};
pub use lane_reading::read_lane_line;
pub use laws::{
    lane_lines_are_spelled, scripts_are_read_line_by_line, spelled_again, texts_end_once,
};
pub use line_reader::{LineReader, Taken};
pub use reading::read_line;
pub use writing::write_step;

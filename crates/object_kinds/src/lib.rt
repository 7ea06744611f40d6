//! Notes: a text of printable characters and line feeds.
//!
//! Tables: texts in cells A1 to Z99.
//!
//! Drawings: boxes and lines in a picture of characters.
#![tactic(auto)]

mod canvas;
mod cell_name;
mod cell_texts;
pub mod drawing;
mod drawing_edits;
mod entries;
pub mod note;
mod note_edits;
mod note_lines;
mod note_text;
mod order;
mod shapes;
mod stored;
pub mod table;
mod table_edits;
mod table_lines;

//! The words of a script's lines: how lines and words are parted, and what names, interfaces and methods are written with.
#![tactic(auto)]

mod few_words;
mod letters;
mod splitting;

pub use few_words::{first_word, four_words, one_word, three_words, two_words};
pub use letters::{are_names, is_interface_word, is_method_word, is_name};
pub use splitting::{Words, split, text_words};

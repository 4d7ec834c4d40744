//! What `check` answers of small sets of files, computed literally by the rules of the language: the first refusal of
//! constants and kinds, behind those of files and names, and else the listing. It is plain, slow, and apart from the
//! code that is proved of the definitions. The program `check_names` compares the two.
#![tactic(auto)]

mod checked;
mod const_stage;
mod defaults;
mod fields;
mod here;
mod kind_stage;
mod listing;
mod orders;
mod parts;
mod type_text;
mod value_reasons;

pub use checked::{Answer, answer_of};

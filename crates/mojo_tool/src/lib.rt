//! The program: words and files to a text and a status.
#![tactic(auto)]

mod at_once;
mod audit;
mod cause_text;
mod check;
mod compat;
mod decide;
mod decode;
mod encode;
mod line_end;
mod load;
mod lookup;
mod refusal;
mod run;
mod status;
mod top;

pub use refusal::ToolRefusal;
pub use status::Status;
pub use top::{
    complete, mojo_alone, mojo_main, one_work, prints_again, same_bytes_are_shown,
    schemas_of_files_can_be_printed, some_work,
};

//! What files, names, constants and enumerators mean in small sets of files, and why files are refused for their
//! imports and names, computed literally: plain, slow, and apart from the code that is proved of the definitions. The
//! program `check_names` compares the two.
#![tactic(auto)]

mod file_order;
mod file_reasons;
mod look_up;
mod members;
mod name_reasons;
mod reasons;
mod things;
mod uses;
mod values;

pub use file_order::order;
pub use file_reasons::no_order;
pub use look_up::{Given, meaning};
pub use members::{ListSort, Member, MemberList, lists_of};
pub use name_reasons::reasons_of_names;
pub use reasons::{Reason, Word, add_reason, first_reason};
pub use things::{Origin, Thing, basic_of, things_of};
pub use uses::{Use, Wanted, uses_in, uses_of};
pub use values::{Found, value, value_of};

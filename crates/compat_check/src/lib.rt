//! Whether a newer schema reads what an older one writes.
#![tactic(auto)]

mod comparison;
mod keep;
mod law;
mod name_table;
mod named_schema;
mod names;
mod pair_set;
mod roots;
mod rounds;

pub use comparison::compatible;
pub use law::some_verdict;

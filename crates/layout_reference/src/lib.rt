//! The layout of structs, computed literally on small inputs: plain, slow, and apart from the code that
//! is proved of the definition.
#![tactic(auto)]

pub mod layout;

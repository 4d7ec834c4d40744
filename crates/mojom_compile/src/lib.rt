//! Mojom files to their trees and to their schema.
#![tactic(auto)]

mod compiler;
mod error;
mod schema_error;
mod schemas;
mod source;
mod tables;

pub use compiler::{one_tree, read};
pub use error::{Cause, CompileError, FileRefusal};
pub use schema_error::SchemaError;
pub use schemas::{compile, one_schema};
pub use source::Source;

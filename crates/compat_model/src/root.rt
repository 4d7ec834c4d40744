//! Where the comparison of two schemas begins.

use mj_schema::DefinitionRow;

/// A stable definition of the older schema, with the number of the newer one's of its sort and full name,
/// where there is one.
#[derive(Clone, Copy)]
pub struct Root {
    pub definition: DefinitionRow,
    pub partner: Option<u32>,
}

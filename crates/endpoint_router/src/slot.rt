//! What a slot holds.

ghost use Rattle.std.specs.Prelude.{◌≡◌};
ghost use Rattle.std.specs.Option.{option_copied};

use crate::row::Row;
use bind_model::EndpointName;

/// A place, with the name that it is of: a row, or none yet.
#[derive(Drop)]
pub(crate) struct Placed {
    pub(crate) name: EndpointName,
    pub(crate) row: Option<Row>,
}

impl Placed {
    /// The row, where there is one.
    pub(crate) fn row(&self) -> Option<&Row>
        ensures { option_copied result ≡ self.now.row }
    {
        match &self.row {
            Some(row) => Some(row),
            None => None,
        }
    }
}

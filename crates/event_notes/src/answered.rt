//! The requests whose responses were got.

ghost use Rattle.std.specs.Prelude.{◌≡◌, ◌||◌, [], OnOk};
ghost use Rattle.bind_model.specs.Names.{same_request};
ghost use Rattle.bind_model.specs.declared.names.RequestName.{RequestName as request_name};
ghost use Rattle.event_notes.specs.steps.Got.{has_request};

use bind_model::RequestName;
use std::alloc::{AllocError, Global};
use std::collections::BTreeSet;
use std::marker::Model;

/// Requests by their names. Contracts see these in order.
#[derive(Drop)]
pub(crate) struct Answered {
    names: BTreeSet<RequestName>,
}

impl Model for Answered {
    ghost use Rattle.std.specs.Prelude.{List};
    ghost use Rattle.bind_model.specs.declared.names.RequestName.{RequestName};

    ghost Value = { List RequestName };

    ghost view = { λ answered. answered.names.keys };
}

impl Answered {
    /// No requests. Takes no memory.
    pub(crate) fn new(alloc: Global) -> Answered
        ensures { result ≡ [] }
    {
        Answered {
            names: BTreeSet::new(alloc),
        }
    }

    /// Adds a request.
    pub(crate) fn insert(&mut self, name: RequestName) -> Result<(), AllocError>
        ensures { OnOk result ((q : request_name) → has_request self.new q ≡ (has_request self.old q || same_request name q)) }
    {
        self.names.insert(name)?;
        Ok(())
    }

    /// Whether a request is one of them.
    pub(crate) fn has(&self, name: RequestName) -> bool
        ensures { result ≡ has_request self.now name }
    {
        self.names.contains(&name)
    }
}

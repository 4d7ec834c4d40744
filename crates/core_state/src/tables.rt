//! What is kept of controls and of data pipes.

ghost use Rattle.std.specs.Prelude.{[]};
ghost use Rattle.core_state.specs.Agreement.{TablesAgree};

use data_pipe::DataTable;
use end_notices::NoticeTable;
use std::alloc::Global;

/// What ends keep of controls, and all data pipes.
#[derive(Drop)]
pub struct Tables {
    pub notices: NoticeTable,
    pub flows: DataTable,
}

impl Tables {
    /// Nothing yet. Takes no memory.
    pub fn new(alloc: Global) -> Tables
        ensures { TablesAgree [] result }
    {
        Tables {
            notices: NoticeTable::new(alloc),
            flows: DataTable::new(alloc),
        }
    }
}

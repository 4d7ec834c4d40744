//! The same calls from a seat at a hub. A hub is a core that its sequences share: each has a pass, with which a thread of its own may step
//! the core, and a pass that sits at its hub does commands as a core alone does. Here one sequence does all, and no thread is started.

ghost use Rattle.std.specs.Prelude.{ℕ, ◌≡◌, Some, length, slice_get};
ghost use Rattle.std.specs.Arc.{arc_value};
ghost use Rattle.bind_hub.specs.Hubs.{schema_in, seqs_in};
ghost use Rattle.bind_hub.specs.Passes.{IsPassOf};

use crate::calls::{cents_of, deal, no_handles};
use crate::held::{Held, Stopped};
use crate::traded::{Traded, settle};
use anyhow::{Result, anyhow, bail};
use bind_hub::{Hub, Pass, Seat};
use mj_schema::Schema;
use remote_receiver::{Answered, BoxedJob, Callback, Note};
use std::alloc::Global;
use std::sync::{Arc, Wait};

/// A pass sits down at its hub and trades: the pass again, and how the trade went.
fn deal_seated<W: Wait>(
    rt: &W,
    alloc: Global,
    hub: &Hub,
    pass: Pass,
    schema: &Schema,
    interface: u32,
    jobs: (BoxedJob, BoxedJob),
) -> (Pass, Traded)
    requires schema { schema_in hub.now ≡ schema.now }
    requires pass { IsPassOf hub.now.turn.board.shared.table_id (schema_in hub.now) (seqs_in hub.now)
        pass.number pass.place.table_id pass.place.me.0 }
    ensures { IsPassOf hub.now.turn.board.shared.table_id (schema_in hub.now) (seqs_in hub.now)
        result.0.number result.0.place.table_id result.0.place.me.0 }
{
    let seat = Seat::new(hub, rt, pass);
    let (risen, traded) = deal(seat, alloc, schema, interface, jobs);
    let again = risen.into_pass();
    (again, traded)
}

/// The last of the passes of a hub trades, and stands among them again.
fn deal_last<W: Wait>(
    rt: &W,
    alloc: Global,
    hub: &Hub,
    passes: Vec<Pass>,
    schema: &Schema,
    interface: u32,
    jobs: (BoxedJob, BoxedJob),
) -> (Vec<Pass>, Traded)
    requires schema { schema_in hub.now ≡ schema.now }
    requires passes { (k : ℕ) (p : _) → slice_get passes.items k ≡ Some p
        → IsPassOf hub.now.turn.board.shared.table_id (schema_in hub.now) (seqs_in hub.now) p.number p.place.table_id p.place.me.0 }
    ensures count { length result.0.items ≡ length passes.items }
    ensures passes { (k : ℕ) (q : _) → slice_get result.0.items k ≡ Some q
        → IsPassOf hub.now.turn.board.shared.table_id (schema_in hub.now) (seqs_in hub.now) q.number q.place.table_id q.place.me.0 }
{
    let mut passes = passes;
    match passes.pop() {
        Some(pass) => {
            let (again, traded) = deal_seated(rt, alloc, hub, pass, schema, interface, jobs);
            passes.push_reserved(again);
            (passes, traded)
        }
        None => {
            let traded = Traded {
                notes: Vec::new(alloc),
                held: Held::new(alloc, no_handles(alloc)),
                outcome: Err(Stopped::Error(anyhow!("there is no pass"))),
            };
            (passes, traded)
        }
    }
}

/// Trades at a new hub of one sequence: a note for each job, and how many things aren't closed. Waits for its turns.
pub fn buy_seated<W: Wait>(
    rt: &W,
    alloc: Global,
    schema: &Arc<Schema>,
    interface: u32,
) -> Result<(Vec<Note>, usize)> {
    let first: Callback = Box::new(alloc, |got: &Answered| cents_of(got))?;
    let second: Callback = Box::new(alloc, |got: &Answered| cents_of(got))?;
    let jobs = (BoxedJob { run: first }, BoxedJob { run: second });
    let shared = Arc::try_clone(schema)?;
    let Ok((hub, passes)) = Hub::start(alloc, shared, 1) else {
        bail!("out of memory")
    };
    let (passes, traded) = deal_last(rt, alloc, &hub, passes, schema, interface, jobs);
    let core = hub.close(passes);
    settle(alloc, core, traded)
}

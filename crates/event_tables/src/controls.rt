//! Controls that the machine writes by itself.

ghost use Rattle.std.specs.Prelude.{◌<◌, [], ◌∷◌, OnOk};
ghost use Rattle.control_bytes.specs.declared.control.Control.TheVariants as says;
ghost use Rattle.wire_model.specs.HeaderMarks.{CONTROL_ID};
ghost use Rattle.message_pipe.specs.Ends.{end_of, peer_of};
ghost use Rattle.core_state.specs.Emitting.{AreNamed, EmitsTo, HasPeer, IsNamed, controls_at, emitted_at};

use core_state::Routers;
use core_state::emit::{controls, versions};
use message_pipe::ThingPipes;
use mj_base::EndId;
use std::alloc::{AllocError, Global};

/// Emits the controls that the endpoints of these ids at an end are closed, but of those whose peer is known
/// to be.
pub fn emit_all(
    pipes: &mut ThingPipes,
    endpoints: &Routers,
    alloc: Global,
    end: EndId,
    ids: &[u32],
) -> Result<(), AllocError>
    requires named { AreNamed ids.now }
    requires peer { HasPeer pipes.old end }
    ensures { OnOk result (EmitsTo (peer_of (end_of pipes.old.ends end)) (controls_at endpoints.now end ids.now) pipes.old pipes.new) }
{
    let Some(peer) = pipes.peer(end) else {
        return Ok(());
    };
    if pipes.is_closed(peer) {
        return Ok(());
    }
    let messages = controls(endpoints, alloc, end, ids)?;
    pipes.push_emitted(peer, messages)
}

/// Emits the control that the endpoint of an id at an end is closed, unless its peer is known to be.
pub(crate) fn emit_closed(
    pipes: &mut ThingPipes,
    endpoints: &Routers,
    alloc: Global,
    end: EndId,
    id: u32,
) -> Result<(), AllocError>
    requires named { IsNamed id }
    requires peer { HasPeer pipes.old end }
    ensures { OnOk result (EmitsTo (peer_of (end_of pipes.old.ends end)) (controls_at endpoints.now end (id ∷ [])) pipes.old pipes.new) }
{
    emit_all(pipes, endpoints, alloc, end, &[id])
}

/// Emits the version of the interface of the endpoint of an id at an end, unless its peer is known to be
/// closed.
pub fn emit_version(
    pipes: &mut ThingPipes,
    endpoints: &Routers,
    alloc: Global,
    end: EndId,
    id: u32,
    version: u32,
) -> Result<(), AllocError>
    requires named { id < CONTROL_ID }
    requires peer { HasPeer pipes.old end }
    ensures { OnOk result (EmitsTo (peer_of (end_of pipes.old.ends end))
        (emitted_at (λ n. says.Version n version) endpoints.now end (id ∷ [])) pipes.old pipes.new) }
{
    let Some(peer) = pipes.peer(end) else {
        return Ok(());
    };
    if pipes.is_closed(peer) {
        return Ok(());
    }
    let messages = versions(endpoints, alloc, end, id, version)?;
    pipes.push_emitted(peer, messages)
}

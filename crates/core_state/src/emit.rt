//! Controls: what the machine writes by itself where endpoints are closed, and where it is asked for a version.

ghost use Rattle.std.specs.Prelude.{◌≡◌, ◌<◌, [], ◌∷◌, IfOk, OnOk, OnErr};
ghost use Rattle.control_bytes.specs.Controls.{HasNumber};
ghost use Rattle.control_bytes.specs.declared.control.Control.TheVariants as says;
ghost use Rattle.wire_model.specs.HeaderMarks.{CONTROL_ID};
ghost use Rattle.message_pipe.specs.Ends.{end_of, peer_of};
ghost use Rattle.bind_model.specs.Machine.{is_peer_closed};
ghost use Rattle.core_state.specs.Routers.{found_at};
ghost use Rattle.core_state.specs.Emitting.{AreNamed, EmitsTo, HasPeer, IsNamed, control_for, controls_at, emitted_at};

use crate::routers::Routers;
use control_bytes::{Control, write_control};
use message_pipe::{Message, Pipes};
use mj_base::{EndId, Items};
use std::alloc::{AllocError, Global};

/// The message of a control.
fn message_of(alloc: Global, control: Control) -> Result<Message, AllocError>
    requires { HasNumber control }
    ensures { IfOk result (λ message. message ≡ control_for control) }
{
    let bytes = Items::from_vec(write_control(alloc, control)?);
    Ok(Message {
        bytes,
        handles: Items::new(alloc),
        emitted: true,
    })
}

/// The control that tells that the endpoint of an id is closed.
fn closed(alloc: Global, id: u32) -> Result<Message, AllocError>
    requires { IsNamed id }
    ensures { IfOk result (λ message. message ≡ control_for (says.Closed id)) }
{
    message_of(alloc, Control::Closed(id))
}

/// Whether the peer of the endpoint of an id at an end is known to be closed.
fn is_peer_closed(endpoints: &Routers, end: EndId, id: u32) -> bool
    ensures { result ≡ is_peer_closed (found_at endpoints.now end id) }
{
    match endpoints.find(end, id) {
        Some(endpoint) => endpoint.peer_closed,
        None => false,
    }
}

/// The controls of the endpoints of these ids at an end, but of those whose peer is known to be closed.
pub fn controls(
    endpoints: &Routers,
    alloc: Global,
    end: EndId,
    ids: &[u32],
) -> Result<Vec<Message>, AllocError>
    requires { AreNamed ids.now }
    ensures { IfOk result (λ messages. messages.items ≡ controls_at endpoints.now end ids.now) }
{
    let mut messages = Vec::new(alloc);
    for id in ids {
        if !is_peer_closed(endpoints, end, *id) {
            messages.push(closed(alloc, *id)?)?;
        }
    }
    Ok(messages)
}

/// Emits controls of the endpoints of these ids at an end, but of those whose peer is known to be closed:
/// they are written for reading at the other end of the pipe, unless that is closed. Without memory
/// nothing changes.
pub fn emit(
    pipes: &mut Pipes,
    endpoints: &Routers,
    alloc: Global,
    end: EndId,
    ids: &[u32],
) -> Result<(), AllocError>
    requires named { AreNamed ids.now }
    requires peer { HasPeer pipes.old end }
    ensures ok { OnOk result (EmitsTo (peer_of (end_of pipes.old.ends end)) (controls_at endpoints.now end ids.now) pipes.old pipes.new) }
    ensures err { OnErr result (pipes.new ≡ pipes.old) }
{
    let Some(peer) = pipes.peer(end) else {
        return Ok(());
    };
    if pipes.is_closed(peer) {
        return Ok(());
    }
    let messages = controls(endpoints, alloc, end, ids)?;
    pipes.push_emitted(peer, messages)
}

/// Emits the control of the endpoint of one id.
pub fn emit_one(
    pipes: &mut Pipes,
    endpoints: &Routers,
    alloc: Global,
    end: EndId,
    id: u32,
) -> Result<(), AllocError>
    requires named { IsNamed id }
    requires peer { HasPeer pipes.old end }
    ensures ok { OnOk result (EmitsTo (peer_of (end_of pipes.old.ends end)) (controls_at endpoints.now end (id ∷ [])) pipes.old pipes.new) }
    ensures err { OnErr result (pipes.new ≡ pipes.old) }
{
    emit(pipes, endpoints, alloc, end, &[id])
}

/// The version of the interface of the endpoint of an id at an end, unless its peer is known to be closed.
pub fn versions(
    endpoints: &Routers,
    alloc: Global,
    end: EndId,
    id: u32,
    version: u32,
) -> Result<Vec<Message>, AllocError>
    requires { id < CONTROL_ID }
    ensures { IfOk result (λ messages. messages.items ≡ emitted_at (λ n. says.Version n version) endpoints.now end (id ∷ [])) }
{
    let mut messages = Vec::new(alloc);
    if !is_peer_closed(endpoints, end, id) {
        messages.push(message_of(alloc, Control::Version(id, version))?)?;
    }
    Ok(messages)
}

/// Emits the version of the interface of the endpoint of an id at an end, unless its peer is known to be
/// closed: it is written for reading at the other end of the pipe, unless that is closed. Without memory
/// nothing changes.
pub fn emit_version(
    pipes: &mut Pipes,
    endpoints: &Routers,
    alloc: Global,
    end: EndId,
    id: u32,
    version: u32,
) -> Result<(), AllocError>
    requires named { id < CONTROL_ID }
    requires peer { HasPeer pipes.old end }
    ensures ok { OnOk result (EmitsTo (peer_of (end_of pipes.old.ends end))
        (emitted_at (λ n. says.Version n version) endpoints.now end (id ∷ [])) pipes.old pipes.new) }
    ensures err { OnErr result (pipes.new ≡ pipes.old) }
{
    let Some(peer) = pipes.peer(end) else {
        return Ok(());
    };
    if pipes.is_closed(peer) {
        return Ok(());
    }
    let messages = versions(endpoints, alloc, end, id, version)?;
    pipes.push_emitted(peer, messages)
}

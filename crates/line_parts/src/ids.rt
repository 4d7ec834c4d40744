//! Things and endpoints by their numbers.

ghost use Rattle.byte_rules.specs.Reading.{Gives};
ghost use Rattle.line_parts.specs.Ids.{sequence, end, token, thing, endpoint, pending, responder};

use crate::numbers::wide;
use bind_model::{PendingId, ResponderId};
use byte_rules::{Stop, expect, is_next};
use handle_table::{Thing, TokenId};
use mj_base::{EndId, SeqId};
use value_text::index;

/// A sequence by its number, and the bytes after it.
pub fn sequence(bytes: &[u8]) -> Result<(SeqId, &[u8]), Stop>
    ensures { Gives (λ x. (x.0, x.1.now)) result (sequence.read bytes.now) }
{
    let (number, rest) = index(bytes)?;
    Ok((SeqId(number), rest))
}

/// An end, and the bytes after it.
#[tactic(auto, unfolding(crate::specs::Ids::end))]
pub fn end(bytes: &[u8]) -> Result<(EndId, &[u8]), Stop>
    ensures { Gives (λ x. (x.0, x.1.now)) result (end.read bytes.now) }
{
    let rest = expect(bytes, b'e')?;
    let (seq, rest) = index(rest)?;
    let rest = expect(rest, b'.')?;
    let (serial, rest) = index(rest)?;
    Ok((EndId { seq, serial }, rest))
}

/// A token, and the bytes after it.
#[tactic(auto, unfolding(crate::specs::Ids::token))]
pub fn token(bytes: &[u8]) -> Result<(TokenId, &[u8]), Stop>
    ensures { Gives (λ x. (x.0, x.1.now)) result (token.read bytes.now) }
{
    let rest = expect(bytes, b't')?;
    let (seq, rest) = index(rest)?;
    let rest = expect(rest, b'.')?;
    let (serial, rest) = index(rest)?;
    Ok((TokenId { seq, serial }, rest))
}

/// An end or a token, and the bytes after it.
#[tactic(auto, unfolding(crate::specs::Ids::thing))]
pub fn thing(bytes: &[u8]) -> Result<(Thing, &[u8]), Stop>
    ensures { Gives (λ x. (x.0, x.1.now)) result (thing.read bytes.now) }
{
    if is_next(bytes, b'e') {
        let (end, rest) = end(bytes)?;
        return Ok((Thing::End(end), rest));
    }
    let (token, rest) = token(bytes)?;
    Ok((Thing::Token(token), rest))
}

/// An endpoint by its end and its id there, and the bytes after it.
#[tactic(auto, unfolding(crate::specs::Ids::endpoint))]
pub fn endpoint(bytes: &[u8]) -> Result<((EndId, u32), &[u8]), Stop>
    ensures { Gives (λ x. (x.0, x.1.now)) result (endpoint.read bytes.now) }
{
    let (end, rest) = end(bytes)?;
    let rest = expect(rest, b'#')?;
    let (id, rest) = index(rest)?;
    Ok(((end, id), rest))
}

/// A pending endpoint, and the bytes after it.
#[tactic(auto, unfolding(crate::specs::Ids::pending))]
pub fn pending(bytes: &[u8]) -> Result<(PendingId, &[u8]), Stop>
    ensures { Gives (λ x. (x.0, x.1.now)) result (pending.read bytes.now) }
{
    let rest = expect(bytes, b'p')?;
    let ((end, id), rest) = endpoint(rest)?;
    Ok((PendingId { end, id }, rest))
}

/// A responder, and the bytes after it. Its interface isn't in the text: it is 0.
#[tactic(auto, unfolding(crate::specs::Ids::responder))]
pub fn responder(bytes: &[u8]) -> Result<(ResponderId, &[u8]), Stop>
    ensures { Gives (λ x. (x.0, x.1.now)) result (responder.read bytes.now) }
{
    let rest = expect(bytes, b'r')?;
    let ((end, id), rest) = endpoint(rest)?;
    let rest = expect(rest, b'@')?;
    let (request, rest) = wide(rest)?;
    let rest = expect(rest, b'.')?;
    let (method, rest) = index(rest)?;
    let responder = ResponderId {
        end,
        id,
        request,
        interface: 0,
        method,
    };
    Ok((responder, rest))
}

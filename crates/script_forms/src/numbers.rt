//! Numbers and bytes, each in its one spelling.

ghost use Rattle.std.specs.Prelude.{◌≡◌, ◌↔◌, IsTrue, IfOk, MatchOption};
ghost use Rattle.hex.specs.declared.error.FromHexError.TheVariants.{OutOfMemory};
ghost use Rattle.script_forms.specs.Spelled.{SpellsBytes};
ghost use Rattle.script_forms.specs.steps.Numbers.{SpellsMoment, SpellsNumber, IsEndpoint, NoEndpoint};

use hex::FromHexError;
use mj_base::Items;
use script_words::{is_name, split, two_words};
use std::alloc::{AllocError, Global};

/// The number that the word spells in decimal, with no sign and no leading zero; none where it spells
/// no number below 2^32 so.
pub(crate) fn number(alloc: Global, word: &[u8]) -> Result<Option<u32>, AllocError>
    ensures { IfOk result (λ found. SpellsNumber word.now found) }
{
    match str::from_utf8(word) {
        Ok(text) => match text.parse::<u32>() {
            Ok(n) => {
                let spelled = n.to_string(alloc)?;
                if spelled.as_bytes() == word {
                    Ok(Some(n))
                } else {
                    Ok(None)
                }
            }
            Err(_) => Ok(None),
        },
        Err(_) => Ok(None),
    }
}

/// The moment that the word spells in decimal, with a minus where it is below 0, and with no leading zero;
/// none where it spells none of 64 bits so.
pub(crate) fn moment(alloc: Global, word: &[u8]) -> Result<Option<i64>, AllocError>
    ensures { IfOk result (λ found. SpellsMoment word.now found) }
{
    match str::from_utf8(word) {
        Ok(text) => match text.parse::<i64>() {
            Ok(at) => {
                let spelled = at.to_string(alloc)?;
                if spelled.as_bytes() == word {
                    Ok(Some(at))
                } else {
                    Ok(None)
                }
            }
            Err(_) => Ok(None),
        },
        Err(_) => Ok(None),
    }
}

/// An endpoint, by the name of its end and its id there.
#[derive(Clone, Copy)]
pub(crate) struct EndpointParts<'a> {
    pub name: &'a [u8],
    pub id: u32,
}

/// The endpoint that the word spells as `x#0`; none where it spells none.
pub(crate) fn endpoint<'a>(
    alloc: Global,
    word: &'a [u8],
) -> Result<Option<EndpointParts<'a>>, AllocError>
    ensures { IfOk result (λ found. MatchOption found (NoEndpoint word.now) (λ e. IsEndpoint word.now e.name.now e.id)) }
{
    let parts = split(alloc, word, b'#')?;
    let Some((name, digits)) = two_words(parts.as_slice()) else {
        return Ok(None);
    };
    if !is_name(name) {
        return Ok(None);
    }
    match number(alloc, digits)? {
        Some(id) => Ok(Some(EndpointParts { name, id })),
        None => Ok(None),
    }
}

/// Whether memory ran out.
fn is_memory(error: FromHexError) -> bool
    ensures { IsTrue result ↔ (error ≡ OutOfMemory) }
{
    match error {
        FromHexError::OutOfMemory => true,
        FromHexError::InvalidHexCharacter { .. }
        | FromHexError::OddLength
        | FromHexError::InvalidStringLength => false,
    }
}

/// The bytes that the word spells in hexadecimal, in lower case and `-` for no bytes; none where it
/// spells none so.
pub fn hex_bytes(alloc: Global, word: &[u8]) -> Result<Option<Items<u8>>, AllocError>
    ensures { IfOk result (λ found. SpellsBytes word.now found) }
{
    if word == b"-".as_slice() {
        return Ok(Some(Items::new(alloc)));
    }
    if word.is_empty() {
        return Ok(None);
    }
    match hex::decode(alloc, word) {
        Ok(bytes) => {
            let spelled = hex::encode(alloc, bytes.as_slice())?;
            if spelled.as_bytes() == word {
                Ok(Some(Items::from_vec(bytes)))
            } else {
                Ok(None)
            }
        }
        Err(error) => {
            if is_memory(error) {
                Err(AllocError)
            } else {
                Ok(None)
            }
        }
    }
}

//! The words for sides, sorts, fates of callbacks, and causes.

ghost use Rattle.std.specs.Prelude.{◌≡◌};
ghost use Rattle.history_text.specs.Words.{side_word, sort_word, message_word, fate_word, fault_word};

use crate::notes::Fate;
use handle_table::TokenSort;
use mj_base::FaultKind;
use wire_encoder::EndpointSide;
use wire_model::MessageSide;

/// The word for a side of an endpoint.
pub(crate) fn side_word(side: EndpointSide) -> &'static str
    ensures { result.now ≡ side_word side }
{
    match side {
        EndpointSide::Remote => "remote",
        EndpointSide::Receiver => "receiver",
    }
}

/// The word for a sort of token.
pub(crate) fn sort_word(sort: TokenSort) -> &'static str
    ensures { result.now ≡ sort_word sort }
{
    match sort {
        TokenSort::SharedBuffer => "shared_buffer",
        TokenSort::Platform => "platform",
    }
}

/// The word for a side of a method.
pub(crate) fn message_word(side: MessageSide) -> &'static str
    ensures { result.now ≡ message_word side }
{
    match side {
        MessageSide::Request => "request",
        MessageSide::Response => "response",
    }
}

/// The word for what became of a callback.
pub(crate) fn fate_word(fate: Fate) -> &'static str
    ensures { result.now ≡ fate_word fate }
{
    match fate {
        Fate::Ran => "ran",
        Fate::Dropped => "dropped",
    }
}

/// The word for a fault, as Chromium has it where it has one.
pub fn fault_word(kind: FaultKind) -> &'static str
    ensures { result.now ≡ fault_word kind }
{
    match kind {
        FaultKind::MisalignedObject => "MISALIGNED_OBJECT",
        FaultKind::IllegalMemoryRange => "ILLEGAL_MEMORY_RANGE",
        FaultKind::UnexpectedStructHeader => "UNEXPECTED_STRUCT_HEADER",
        FaultKind::UnexpectedArrayHeader => "UNEXPECTED_ARRAY_HEADER",
        FaultKind::IllegalHandle => "ILLEGAL_HANDLE",
        FaultKind::UnexpectedInvalidHandle => "UNEXPECTED_INVALID_HANDLE",
        FaultKind::IllegalPointer => "ILLEGAL_POINTER",
        FaultKind::UnexpectedNullPointer => "UNEXPECTED_NULL_POINTER",
        FaultKind::IllegalInterfaceId => "ILLEGAL_INTERFACE_ID",
        FaultKind::UnexpectedInvalidInterfaceId => "UNEXPECTED_INVALID_INTERFACE_ID",
        FaultKind::MessageHeaderInvalidFlags => "MESSAGE_HEADER_INVALID_FLAGS",
        FaultKind::MessageHeaderMissingRequestId => "MESSAGE_HEADER_MISSING_REQUEST_ID",
        FaultKind::MessageHeaderUnknownMethod => "MESSAGE_HEADER_UNKNOWN_METHOD",
        FaultKind::DifferentSizedArraysInMap => "DIFFERENT_SIZED_ARRAYS_IN_MAP",
        FaultKind::UnexpectedNullUnion => "UNEXPECTED_NULL_UNION",
        FaultKind::UnknownUnionTag => "UNKNOWN_UNION_TAG",
        FaultKind::UnknownEnumValue => "UNKNOWN_ENUM_VALUE",
        FaultKind::MaxRecursionDepth => "MAX_RECURSION_DEPTH",
        FaultKind::BadUtf8 => "BAD_UTF8",
    }
}

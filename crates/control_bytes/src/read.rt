//! What a control says.

ghost use Rattle.std.specs.Prelude.{◌≡◌, ◌+◌, ◌≤◌, ◌↔◌, length, Some, IsOk, IfOk, IfErr};
ghost use Rattle.control_bytes.specs.Controls.{control_at, control_by, control_marks, control_said, has_header, kind_fits, number_fits, second_read};
ghost use Rattle.control_bytes.specs.steps.Rooms.{HasRoom};
ghost use Rattle.message_header.specs.FirstFailed.{first_failed};
ghost use Rattle.message_header.specs.Said.{header_said, IsPlaced};
ghost use Rattle.message_header.specs.steps.Judged.{Judges};
ghost use Rattle.wire_model.specs.HeaderMarks.{CONTROL_ID};
ghost use Rattle.wire_model.specs.Message.{is_plain};
ghost use Rattle.wire_model.specs.Stands.{IsFine};

use crate::control::Control;
use crate::judge::judge;
use crate::kinds::{
    CLOSED_KIND, FLUSH_KIND, LONG_BYTES, QUERY_KIND, REQUIRE_KIND, SHORT_BYTES, VERSION_KIND,
};
use message_header::CONTROL_ID;
use mj_base::{Fault, FaultKind, Header, le32};

/// Whether a message neither expects a response nor is one.
fn is_plain(flags: u32) -> bool
    ensures value { result ≡ is_plain flags }
{
    flags % 2 != 1 && flags / 2 % 2 != 1
}

/// Whether the two numbers of a struct at a place are those of a control's payload.
fn has_header(bytes: &[u8], at: u64) -> bool
    requires { at + 8 ≤ length bytes.now }
    ensures value { result ≡ has_header bytes.now at }
{
    let size = le32(bytes, at);
    (size == SHORT_BYTES || size == LONG_BYTES) && le32(bytes, at + 4) == 0
}

/// Whether controls of a kind have payloads of so many bytes.
fn kind_fits(size: u32, kind: u32) -> bool
    ensures value { result ≡ kind_fits size kind }
{
    if size == LONG_BYTES {
        kind == VERSION_KIND || kind == REQUIRE_KIND
    } else {
        kind == CLOSED_KIND || kind == QUERY_KIND || kind == FLUSH_KIND
    }
}

/// Whether the number of a control of a kind may be this.
fn number_fits(kind: u32, number: u32) -> bool
    ensures value { result ≡ number_fits kind number }
{
    match kind {
        CLOSED_KIND => 0 < number && number < CONTROL_ID,
        FLUSH_KIND => 0 < number,
        _ => number < CONTROL_ID,
    }
}

/// The tests of a control in their order.
#[tactic(auto, unfolding(crate::specs::Controls::control_marks))]
fn judge_tests(bytes: &[u8], header: &Header) -> Result<(), Fault>
    requires said { header.now ≡ header_said bytes.now }
    requires placed { IsPlaced bytes.now header.now }
    ensures judged { Judges result (control_marks bytes.now) }
{
    judge(header.name == 0, FaultKind::MessageHeaderUnknownMethod, 12)?;
    let plain = is_plain(header.flags);
    judge(plain, FaultKind::MessageHeaderInvalidFlags, 16)?;
    let at = header.payload.start;
    judge(at % 8 == 0, FaultKind::MisalignedObject, at)?;
    let room = header.payload.len;
    judge(
        room >= u64::from(SHORT_BYTES),
        FaultKind::IllegalMemoryRange,
        at,
    )?;
    let has_header = has_header(bytes, at);
    judge(has_header, FaultKind::UnexpectedStructHeader, at)?;
    let size = le32(bytes, at);
    let has_room = size != LONG_BYTES || room >= u64::from(LONG_BYTES);
    judge(has_room, FaultKind::IllegalMemoryRange, at)?;
    let kind = le32(bytes, at + 8);
    let has_kind = kind_fits(size, kind);
    judge(has_kind, FaultKind::MessageHeaderUnknownMethod, at + 8)?;
    let has_number = number_fits(kind, le32(bytes, at + 12));
    judge(has_number, FaultKind::IllegalInterfaceId, at + 12)
}

/// The control of a kind with this number, and with a second where it has two.
fn control_by(kind: u32, number: u32, second: u32) -> Control
    ensures { result ≡ control_by kind number second }
{
    match kind {
        CLOSED_KIND => Control::Closed(number),
        QUERY_KIND => Control::Query(number),
        VERSION_KIND => Control::Version(number, second),
        REQUIRE_KIND => Control::Require(number, second),
        _ => Control::Flush(number),
    }
}

/// The second number of a payload, 0 where it has one alone.
fn second_at(bytes: &[u8], at: u64) -> u32
    requires { HasRoom bytes.now at }
    ensures { result ≡ second_read bytes.now at }
{
    if le32(bytes, at) == LONG_BYTES {
        le32(bytes, at + 16)
    } else {
        0
    }
}

/// What the payload at a place says.
fn control_at(bytes: &[u8], at: u64) -> Control
    requires { HasRoom bytes.now at }
    ensures { result ≡ control_at bytes.now at }
{
    let kind = le32(bytes, at + 8);
    let number = le32(bytes, at + 12);
    let second = second_at(bytes, at);
    control_by(kind, number, second)
}

/// The tests of a control in their order; gives what it says.
fn judge_control(bytes: &[u8], header: &Header) -> Result<Control, Fault>
    requires said { header.now ≡ header_said bytes.now }
    requires placed { IsPlaced bytes.now header.now }
    ensures judged { Judges result (control_marks bytes.now) }
    ensures says { IfOk result (λ said. said ≡ control_said bytes.now) }
{
    judge_tests(bytes, header)?;
    Ok(control_at(bytes, header.payload.start))
}

/// What a control says, else the first of the controls' tests that fails, with the byte place where it
/// stands. The header is the one that was read of the bytes, and is for the controls' interface. Takes
/// no memory.
pub fn read_control(bytes: &[u8], header: &Header) -> Result<Control, Fault>
    requires said { header.now ≡ header_said bytes.now }
    requires placed { IsPlaced bytes.now header.now }
    requires control { header.now.interface_id ≡ CONTROL_ID }
    ensures exactly { IsOk result ↔ IsFine (control_marks bytes.now) }
    ensures says { IfOk result (λ said. said ≡ control_said bytes.now) }
    ensures first { IfErr result (λ fault. first_failed (control_marks bytes.now) ≡ Some fault) }
{
    judge_control(bytes, header)
}

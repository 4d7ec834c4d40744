//! The bytes of controls.

ghost use Rattle.std.specs.Prelude.{◌≡◌, IfOk};
ghost use Rattle.control_bytes.specs.Controls.{begun, short_control, long_control, written_control, HasNumber};

use crate::control::Control;
use crate::kinds::{
    CLOSED_KIND, FLUSH_KIND, LONG_BYTES, QUERY_KIND, REQUIRE_KIND, SHORT_BYTES, VERSION_KIND,
};
use message_header::{CONTROL_ID, Head, write_header};
use mj_base::push_le32;
use std::alloc::{AllocError, Global};

/// What each control with a payload of so many bytes begins with: its header and that of its struct.
fn begin(alloc: Global, size: u32) -> Result<Vec<u8>, AllocError>
    ensures { IfOk result (λ made. made.items ≡ begun size) }
{
    let head = Head {
        interface_id: CONTROL_ID,
        name: 0,
        flags: 0,
        request_id: 0,
        moment: None,
        ids: &[],
    };
    let mut out = Vec::new(alloc);
    write_header(&mut out, &head, u64::from(size))?;
    push_le32(&mut out, size)?;
    push_le32(&mut out, 0)?;
    Ok(out)
}

/// The bytes of a control of a kind with one number.
fn write_short(alloc: Global, kind: u32, number: u32) -> Result<Vec<u8>, AllocError>
    ensures { IfOk result (λ made. made.items ≡ short_control kind number) }
{
    let mut out = begin(alloc, SHORT_BYTES)?;
    push_le32(&mut out, kind)?;
    push_le32(&mut out, number)?;
    Ok(out)
}

/// The bytes of a control of a kind with two numbers.
fn write_long(alloc: Global, kind: u32, number: u32, second: u32) -> Result<Vec<u8>, AllocError>
    ensures { IfOk result (λ made. made.items ≡ long_control kind number second) }
{
    let mut out = begin(alloc, LONG_BYTES)?;
    push_le32(&mut out, kind)?;
    push_le32(&mut out, number)?;
    push_le32(&mut out, second)?;
    push_le32(&mut out, 0)?;
    Ok(out)
}

/// The bytes of the message of a control: 40 where it has one number, 48 where it has two.
pub fn write_control(alloc: Global, control: Control) -> Result<Vec<u8>, AllocError>
    requires number { HasNumber control }
    ensures { IfOk result (λ made. made.items ≡ written_control control) }
{
    match control {
        Control::Closed(id) => write_short(alloc, CLOSED_KIND, id),
        Control::Query(id) => write_short(alloc, QUERY_KIND, id),
        Control::Version(id, version) => write_long(alloc, VERSION_KIND, id, version),
        Control::Require(id, version) => write_long(alloc, REQUIRE_KIND, id, version),
        Control::Flush(flush) => write_short(alloc, FLUSH_KIND, flush),
    }
}

//! Messages, as the validator, the decoder and the views judge them, and as they are read literally.

use check_messages::compare::{Setting, Verdict};
use message_validator::check;
use mj_schema::Schema;
use std::alloc::{AllocError, Global};
use wire_model::{Expected, MessageSide};

/// What a message is to be, by the words `INTERFACE SIDE HANDLES`, and with how many handles it comes; none where there is no such
/// interface.
fn setting_of<'a>(schema: &'a Schema, words: &str) -> Option<Setting<'a>> {
    let mut words = words.split_ascii_whitespace();
    let interface = schema.find_interface(words.next().unwrap_or(""))?;
    let side = if words.next() == Some("response") {
        MessageSide::Response
    } else {
        MessageSide::Request
    };
    let handles = words.next().unwrap_or("").parse::<u32>().unwrap_or(0);
    let expected = Expected { interface, side };
    Some(Setting {
        schema,
        expected,
        handles,
    })
}

/// Compares what comes of a message.
pub fn judge_message(
    alloc: Global,
    schema: &Schema,
    words: &str,
    bytes: &[u8],
) -> Result<Verdict, AllocError> {
    match setting_of(schema, words) {
        Some(setting) => check_messages::compare::compare(alloc, setting, bytes),
        None => Ok(Verdict::Differs),
    }
}

/// Lets the validator alone judge a message.
pub fn check_alone(schema: &Schema, words: &str, bytes: &[u8]) {
    if let Some(setting) = setting_of(schema, words) {
        let _stands = check(setting.schema, setting.expected, bytes, setting.handles).is_ok();
    }
}

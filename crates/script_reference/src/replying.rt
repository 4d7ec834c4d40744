//! Which requests are answered automatically.

use bind_model::{Event, Told};
use call_script::AutoReply;
use wire_model::MessageSide;

/// The automatic reply to what an event got, where there is one.
pub fn reply_to<'a>(autos: &'a [AutoReply], event: &Event) -> Option<&'a AutoReply> {
    let Told::Taken(got) = &event.told else {
        return None;
    };
    let got = got.get();
    if got.target.side == MessageSide::Response {
        return None;
    }
    autos.iter().find(|auto| {
        auto.seq == event.seq
            && auto.prepared.target.interface == got.target.interface
            && auto.prepared.target.method == got.target.method
    })
}

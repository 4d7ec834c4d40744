//! What the names of a script stand for, and what is held under them.

use crate::replying::reply_to;
use bind_model::{Event, PendingId, ResponderId, Told};
use call_script::{AutoReply, Command, Line, NameId, Script};
use handle_table::Thing;
use mj_base::{EndId, SeqId};
use mj_schema::Schema;
use past_reference::past::{handed, is_out};
use past_reference::pendings::is_pending_out;
use past_reference::responders::handed as handed_responder;
use std::alloc::{AllocError, Global};

/// What is held under a name: the handle of a thing, a pending, or a responder.
#[derive(Clone, Copy, PartialEq, Eq)]
pub enum Held {
    Thing(Thing),
    Pending(PendingId),
    Responder(ResponderId),
}

/// What was handed out, the place of the event that did, to whom, and the name that it came under, where its line had one for it.
#[derive(Clone, Copy)]
struct Label {
    place: usize,
    seq: SeqId,
    held: Held,
    name: Option<NameId>,
}

/// That the responder of a name was spent by the event at a place.
#[derive(Clone, Copy)]
struct Spending {
    place: usize,
    name: NameId,
}

/// Whether a line joins.
pub fn is_join(line: &Line) -> bool {
    matches!(line.command, Command::Join(_, _, _))
}

/// The names that a line sets.
fn set_by(alloc: Global, line: Option<&Line>) -> Result<Vec<NameId>, AllocError> {
    match line.map(|line| &line.command) {
        Some(
            Command::Join(_, first, second)
            | Command::Pipe(first, second)
            | Command::Data(_, first, second),
        ) => Ok(vec![in alloc; *first, *second]?),
        Some(Command::Mint(_, name) | Command::Associate(_, _, _, name)) => {
            Ok(vec![in alloc; *name]?)
        }
        Some(Command::Take(_, names)) => Ok(Vec::from_slice(alloc, names.as_slice())?),
        Some(
            Command::Bind(_, _, _)
            | Command::Attach(_, _)
            | Command::Call(_, _, _, _, _)
            | Command::Answer(_, _, _, _)
            | Command::Raw(_, _, _)
            | Command::CloseToken(_)
            | Command::CloseEndpoint(_, _)
            | Command::Notify(_, _)
            | Command::Pause(_, _, _)
            | Command::Flow(_, _),
        )
        | None => Ok(Vec::new(alloc)),
    }
}

/// The pendings that an event handed out.
fn handed_pendings(alloc: Global, event: &Event) -> Result<Vec<PendingId>, AllocError> {
    match &event.told {
        Told::Associated(pending) => Ok(vec![in alloc; *pending]?),
        Told::Taken(got) => Ok(Vec::from_slice(alloc, got.get().pendings.as_slice())?),
        _ => Ok(Vec::new(alloc)),
    }
}

/// What an event hands to its line: the handles, the pendings, and then the responder, unless that is
/// answered automatically.
fn handed_to_line(
    alloc: Global,
    schema: &Schema,
    autos: &[AutoReply],
    event: &Event,
) -> Result<Vec<Held>, AllocError> {
    let mut all = Vec::new(alloc);
    for thing in handed(&event.told) {
        all.push(Held::Thing(*thing))?;
    }
    for pending in &handed_pendings(alloc, event)? {
        all.push(Held::Pending(*pending))?;
    }
    if reply_to(autos, event).is_none() {
        if let Some(responder) = handed_responder(schema, event) {
            all.push(Held::Responder(responder))?;
        }
    }
    Ok(all)
}

/// The name whose responder an event of a line spent: that of an answer which was sent, or of a closing which was done.
fn spent_by(line: Option<&Line>, told: &Told) -> Option<NameId> {
    match (line.map(|line| &line.command), told) {
        (Some(Command::Answer(name, _, _, _)), Told::Sent(_, _))
        | (Some(Command::CloseToken(name)), Told::Closed(_)) => Some(*name),
        _ => None,
    }
}

/// Whether an event of a past is an automatic reply: the one of its sequence before it has one.
fn is_automatic(autos: &[AutoReply], past: &[Event], place: usize) -> bool {
    let Some(event) = past.get(place) else {
        return false;
    };
    let before = past.get(..place).unwrap_or(past);
    match before.iter().rev().find(|other| other.seq == event.seq) {
        Some(other) => reply_to(autos, other).is_some(),
        None => false,
    }
}

/// How many events of a sequence before this place are of lines behind the joins.
fn lines_before(script: &Script, past: &[Event], joins: usize, place: usize, seq: SeqId) -> usize {
    let autos = script.autos.as_slice();
    let before = past.iter().enumerate().take(place).skip(joins);
    before
        .filter(|(at, event)| event.seq == seq && !is_automatic(autos, past, *at))
        .count()
}

/// The line of a sequence whose event may stand at a place of a past, behind so many joins: of its own the first that
/// isn't done there.
fn own_line<'s>(
    script: &'s Script,
    past: &[Event],
    joins: usize,
    place: usize,
    seq: SeqId,
) -> Option<&'s Line> {
    let done = lines_before(script, past, joins, place, seq);
    let lines = script.lines.as_slice();
    lines
        .iter()
        .filter(|line| line.seq == seq && !is_join(*line))
        .nth(done)
}

/// The line that a sequence does next behind these events, which begin with all joins; none where it has done all.
pub fn next_line<'s>(script: &'s Script, past: &[Event], seq: SeqId) -> Option<&'s Line> {
    let lines = script.lines.as_slice();
    let joins = lines.iter().filter(|line| is_join(*line)).count();
    own_line(script, past, joins, past.len(), seq)
}

/// The line whose event stands at a place of a past: the joins in order, then of each sequence its own lines
/// in order; none for an automatic reply.
fn line_of<'s>(script: &'s Script, past: &[Event], place: usize) -> Option<&'s Line> {
    let lines = script.lines.as_slice();
    let joins = lines.iter().filter(|line| is_join(*line)).count();
    if place < joins {
        return lines.iter().filter(|line| is_join(*line)).nth(place);
    }
    if is_automatic(script.autos.as_slice(), past, place) {
        return None;
    }
    let seq = past.get(place)?.seq;
    own_line(script, past, joins, place, seq)
}

/// Whose is what an event handed out at a place of its list: the second end of a join is the other
/// sequence's, all else that of the one that asked.
fn owner(line: Option<&Line>, event: &Event, place: usize) -> SeqId {
    match line.map(|line| &line.command) {
        Some(Command::Join(other, _, _)) if place == 1 => *other,
        _ => event.seq,
    }
}

/// Adds what the event at a place handed out, each under the name that its line set for it.
fn push_labels(
    alloc: Global,
    labels: &mut Vec<Label>,
    line: Option<&Line>,
    event: &Event,
    place: usize,
    handed: &[Held],
) -> Result<(), AllocError> {
    let names = set_by(alloc, line)?;
    for (k, held) in handed.iter().enumerate() {
        labels.push(Label {
            place,
            seq: owner(line, event, k),
            held: *held,
            name: names.get(k).copied(),
        })?;
    }
    Ok(())
}

/// What names stand for behind some events.
#[derive(Drop)]
pub struct Names<'a> {
    past: &'a [Event],
    labels: Vec<Label>,
    spendings: Vec<Spending>,
}

impl<'a> Names<'a> {
    /// The names behind these events.
    pub fn new(
        alloc: Global,
        schema: &Schema,
        script: &Script,
        past: &'a [Event],
    ) -> Result<Names<'a>, AllocError> {
        let mut labels = Vec::new(alloc);
        let mut spendings = Vec::new(alloc);
        for (place, event) in past.iter().enumerate() {
            let line = line_of(script, past, place);
            if let Some(name) = spent_by(line, &event.told) {
                spendings.push(Spending { place, name })?;
            }
            let handed = handed_to_line(alloc, schema, script.autos.as_slice(), event)?;
            push_labels(alloc, &mut labels, line, event, place, &handed)?;
        }
        Ok(Names {
            past,
            labels,
            spendings,
        })
    }

    /// What came last under a name.
    fn label(&self, name: NameId) -> Option<Label> {
        let mut labels = self.labels.iter().rev();
        labels.find(|label| label.name == Some(name)).copied()
    }

    /// What a name stands for: what came under it last.
    fn meant(&self, name: NameId) -> Option<Held> {
        Some(self.label(name)?.held)
    }

    /// The end that a name stands for.
    pub fn end(&self, name: NameId) -> Option<EndId> {
        match self.meant(name) {
            Some(Held::Thing(Thing::End(end))) => Some(end),
            Some(Held::Thing(Thing::Token(_)) | Held::Pending(_) | Held::Responder(_)) | None => {
                None
            }
        }
    }

    /// Whether a name stands for an end or a token.
    pub fn is_thing(&self, name: NameId) -> bool {
        matches!(self.meant(name), Some(Held::Thing(_)))
    }

    /// Whether something came last to this sequence, under this name.
    fn came_last(&self, held: Held, seq: SeqId, name: NameId) -> bool {
        match self.labels.iter().rev().find(|label| label.held == held) {
            Some(label) => label.seq == seq && label.name == Some(name),
            None => false,
        }
    }

    /// Whether a responder that came under a name wasn't spent by that name since: two requests of one id give equal
    /// responders, so only the name tells them apart.
    fn is_unspent(&self, label: Label, name: NameId) -> bool {
        let mut spendings = self.spendings.iter();
        !spendings.any(|spending| spending.name == name && spending.place > label.place)
    }

    /// What a sequence holds under a name: what it stands for, where that is out and came last to this
    /// sequence under this name.
    pub fn held(&self, seq: SeqId, name: NameId) -> Option<Held> {
        let label = self.label(name)?;
        let is_held = match label.held {
            Held::Thing(thing) => is_out(self.past, thing) && self.came_last(label.held, seq, name),
            Held::Pending(pending) => {
                is_pending_out(self.past, pending) && self.came_last(label.held, seq, name)
            }
            Held::Responder(_) => label.seq == seq && self.is_unspent(label, name),
        };
        if is_held { Some(label.held) } else { None }
    }
}

//! The run of a script, by its text, and what an audit says of a text.

ghost use Rattle.std.specs.Arc.{arc_value};
ghost use Rattle.check_audits.specs.steps.Auditable.{IsAuditable};

use crate::judgement::Judgement;
use crate::subject::Subject;
use history_audit::{AuditError, AuditFinding, audit};
use history_text::render;
use script_run::run_alone;
use std::alloc::{AllocError, Global};
use std::sync::Arc;

/// The text of the history of a run in an order.
pub fn run_text(alloc: Global, subject: &Subject, order: u64) -> Result<Vec<u8>, AllocError>
    requires { IsAuditable (arc_value subject.now.schema) subject.now.script }
{
    let Ok(shared) = Arc::try_clone(&subject.schema) else {
        return Err(AllocError);
    };
    let Ok(ran) = run_alone(alloc, shared, &subject.script, order) else {
        return Err(AllocError);
    };
    let schema = &subject.schema;
    let (notes, left) = (ran.notes.as_slice(), ran.left.as_slice());
    render(alloc, schema, &ran.history, notes, left)
}

/// A finding as a judgement.
fn judgement_of(finding: AuditFinding) -> Judgement {
    match finding {
        AuditFinding::Sound(events) => Judgement::Sound(events),
        AuditFinding::Wrong(event) => Judgement::Wrong(event),
        AuditFinding::Short(events) => Judgement::Short(events),
        AuditFinding::Tail(line) => Judgement::Tail(line),
    }
}

/// What an audit says of a text.
pub fn audited(alloc: Global, subject: &Subject, text: &[u8]) -> Result<Judgement, AllocError>
    requires { IsAuditable (arc_value subject.now.schema) subject.now.script }
{
    let Ok(shared) = Arc::try_clone(&subject.schema) else {
        return Err(AllocError);
    };
    match audit(alloc, shared, &subject.script, text) {
        Ok(finding) => Ok(judgement_of(finding)),
        Err(AuditError::BadText { at }) => Ok(Judgement::Bad(at)),
        Err(AuditError::Memory) => Err(AllocError),
    }
}

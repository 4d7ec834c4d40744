//! What is sealed is let through, and is read as what was sealed.
#![tactic(auto)]

ghost use Rattle.sealed_laws.specs.Sealed.{FewAreMet, PassedIsRead, SealedIsRead};

use wire_encoder::laws::passed_is_encodable;

/// What `seal` makes of a value that `prepare` accepted is let through by `check`, as a message of the
/// value's interface and side with as many handles as were prepared, and `decode` gives the value again:
/// clause `sealed`. So it is with each value that passes all checks, in few bytes, behind a head of its
/// target: clause `passed`; and such a value carries at most 64 handles and 64 endpoints: clause `few`. This
/// is a law and does nothing: it calls the law that it rests on.
pub fn sealed_is_read()
    ensures passed { PassedIsRead }
    ensures few { FewAreMet }
    ensures sealed { SealedIsRead }
{
    passed_is_encodable();
}

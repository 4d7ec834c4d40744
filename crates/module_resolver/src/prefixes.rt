//! Names that begin with others.

ghost use Rattle.std.specs.Prelude.{◌≡◌, IfSome};
ghost use Rattle.mj_base.specs.Names.{within};

/// What stands in a name behind another and a dot; none where it doesn't begin with these.
pub fn behind_dot<'a>(outer: &str, name: &'a str) -> Option<&'a str>
    ensures { IfSome result (λ rest. name.now ≡ within outer.now rest.now) }
{
    let rest = name.strip_prefix(outer)?;
    rest.strip_prefix('.')
}

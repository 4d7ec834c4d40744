//! What a table says that agrees with the events. Each law is proved of all histories at once, so its
//! function does nothing.

ghost use Rattle.std.specs.Prelude.{List};
ghost use Rattle.mj_base.specs.declared.ids.EndId.{EndId};
ghost use Rattle.bind_model.specs.Wire.{Wire};
ghost use Rattle.bind_model.specs.declared.event.Event.{Event};
ghost use Rattle.endpoint_router.specs.Agreement.{Agrees, Says};
ghost use Rattle.endpoint_router.specs.Rows.{Contents};

/// A table that agrees with the events says which endpoints these give, which id the end makes next, which
/// number the next request gets, and for which responses nobody waits.
pub fn agreeing_tables_say()
    ensures { (wire : Wire) (past : List Event) (x : EndId) (contents : Contents) → Agrees wire past x contents → Says wire past x contents }
{}

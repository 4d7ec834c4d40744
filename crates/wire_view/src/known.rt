//! How many fields the version of a struct has.

ghost use Rattle.std.specs.Prelude.{◌≡◌, IsTrue};
ghost use Rattle.mj_schema.specs.Versions.{is_table};
ghost use Rattle.wire_model.specs.Rows.{row_for};

use mj_schema::VersionRow;
use schema_rows::row_for;

/// How many fields a version has by rows that rise from 0. The newest is looked at first, since most
/// messages have it.
#[inline(always)]
pub fn known_in(rows: &[VersionRow], version: u32) -> u32
    requires { IsTrue (is_table rows.now) }
    ensures { result ≡ (row_for rows.now version).fields }
{
    match rows {
        [.., newest] if newest.version <= version => newest.fields,
        _ => known_before(rows, version),
    }
}

/// The same, where the version is older than the newest. It stands by itself, so that a view has no room
/// to make for a row.
#[inline(never)]
fn known_before(rows: &[VersionRow], version: u32) -> u32
    requires { IsTrue (is_table rows.now) }
    ensures { result ≡ (row_for rows.now version).fields }
{
    let found = row_for(rows, version);
    found.fields
}

//! The layout of a struct as a line says it, as packing gives it, and as the definition gives it.

ghost use Rattle.std.specs.Prelude.{◌≡◌, map};
ghost use Rattle.mj_schema.specs.declared.rows.DraftField.{DraftField};
ghost use Rattle.mj_schema.specs.Layout.{never_fall};

use crate::kinds::kind_named;
use mj_base::limits::MAX_FIELDS;
use mj_base::{FullName, Items, Text};
use mj_schema::{DraftField, DraftStruct, Place, VersionRow};
use std::alloc::{AllocError, Global};
use version_tables::lay_out;

/// The fields of a struct, and the layout that is wanted: its places, and then its rows.
#[derive(Drop)]
pub struct Wanted {
    fields: Vec<DraftField>,
    layout: String,
}

impl Wanted {
    /// What a line says; none where it isn't of the form.
    pub fn read(alloc: Global, line: &str) -> Result<Option<Wanted>, AllocError> {
        let mut parts = line.split('|');
        let kinds = parts.next().unwrap_or("");
        let versions = parts.next().unwrap_or("");
        let places = parts.next().unwrap_or("");
        let rows = parts.next().unwrap_or("");
        let Some(fields) = fields_of(alloc, kinds, versions)? else {
            return Ok(None);
        };
        let places = places.trim();
        let rows = rows.trim();
        Ok(Some(Wanted {
            fields,
            layout: format!(in alloc; "{places}; {rows}")?,
        }))
    }

    /// Whether the definition and packing both give the layout.
    pub fn is_given(self, alloc: Global) -> Result<bool, AllocError> {
        let Wanted { fields, layout } = self;
        let places = layout_reference::layout::places(alloc, &fields)?;
        let rows = layout_reference::layout::version_rows(alloc, &fields, &places)?;
        let defined = shown(alloc, &places, &rows)?;
        let packed = packed(alloc, fields)?;
        Ok(
            defined.as_str() == layout.as_str()
                && packed.is_some_and(|packed| packed.as_str() == layout.as_str()),
        )
    }
}

/// The fields of these kinds and versions.
fn fields_of(
    alloc: Global,
    kinds: &str,
    versions: &str,
) -> Result<Option<Vec<DraftField>>, AllocError> {
    let mut fields = Vec::new(alloc);
    let mut versions = versions.split_ascii_whitespace();
    for word in kinds.split_ascii_whitespace() {
        let version = versions.next().unwrap_or("");
        let (Some(kind), Ok(min_version)) = (kind_named(alloc, word)?, version.parse::<u32>())
        else {
            return Ok(None);
        };
        fields.push(DraftField {
            name: Text::from_str(alloc, "f")?,
            kind,
            min_version,
            default: None,
        })?;
    }
    Ok(Some(fields))
}

/// Whether the versions never fall.
fn rises(fields: &[DraftField]) -> bool
    ensures { result ≡ never_fall 0 (map (λ (field : DraftField). field.min_version) fields.now) }
{
    let mut version = 0;
    for field in fields {
        if field.min_version < version {
            return false;
        }
        version = field.min_version;
    }
    true
}

/// The layout that packing gives; none where there is no such struct.
fn packed(alloc: Global, fields: Vec<DraftField>) -> Result<Option<String>, AllocError> {
    if fields.len() > MAX_FIELDS || !rises(&fields) {
        return Ok(None);
    }
    let name = FullName::own(Text::from_str(alloc, "s")?);
    let fields = Items::from_vec(fields);
    let draft = DraftStruct {
        name,
        fields,
        stable: false,
    };
    let row = lay_out(alloc, draft)?;
    let mut places = Vec::new(alloc);
    for field in row.fields.as_slice() {
        places.push(Place {
            offset: field.offset,
            bit: field.bit,
            flag: field.flag,
        })?;
    }
    Ok(Some(shown(alloc, &places, row.versions.as_slice())?))
}

/// Places and rows as the lines spell them.
fn shown(alloc: Global, places: &[Place], rows: &[VersionRow]) -> Result<String, AllocError> {
    let mut text = String::new(alloc);
    for (k, place) in places.iter().enumerate() {
        let gap = if k == 0 { "" } else { " " };
        let value = format!(in alloc; "{gap}{}.{}", place.offset, place.bit)?;
        text.push_str(value.as_str())?;
        if let Some(flag) = place.flag {
            let flag = format!(in alloc; ":{}.{}", flag.offset, flag.bit)?;
            text.push_str(flag.as_str())?;
        }
    }
    for (k, row) in rows.iter().enumerate() {
        let gap = if k == 0 { "; " } else { ", " };
        let row = format!(in alloc; "{gap}{} {} {}", row.version, row.fields, row.bytes)?;
        text.push_str(row.as_str())?;
    }
    Ok(text)
}

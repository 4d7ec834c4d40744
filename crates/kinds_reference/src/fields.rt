//! The layout of structs and of parameters, by the literal layout.

use crate::here::{Here, Sort, sort_of, version_at};
use crate::orders::{ordinals_of, places_along};
use crate::type_text::push_type;
use layout_reference::layout;
use mj_base::Text;
use mj_schema::{DraftField, Flag, HandleSort, Kind, KindNode, Place, VersionRow, Width};
use mojom_ast::{BaseNode, PendingSort};
use mojom_files::Basic;
use names_reference::{Member, MemberList};
use std::alloc::{AllocError, Global};

/// A kind that takes the room of a basic kind. What is behind a pointer takes that of a string.
fn basic_room(basic: Basic, nullable: bool) -> KindNode {
    let width = match basic {
        Basic::Bool => return KindNode::Bool { nullable },
        Basic::Int8 | Basic::Uint8 => Width::Bits8,
        Basic::Int16 | Basic::Uint16 => Width::Bits16,
        Basic::Int32 | Basic::Uint32 => Width::Bits32,
        Basic::Int64 | Basic::Uint64 => Width::Bits64,
        Basic::Text | Basic::Float | Basic::Double => return KindNode::Text { nullable: false },
    };
    KindNode::Int {
        width,
        signed: true,
        nullable,
    }
}

/// A kind that takes the room of an endpoint.
fn pending_room(sort: PendingSort) -> KindNode {
    match sort {
        PendingSort::Remote | PendingSort::AssociatedRemote => KindNode::Remote {
            interface: 0,
            nullable: false,
        },
        PendingSort::Receiver | PendingSort::AssociatedReceiver => KindNode::Receiver {
            interface: 0,
            nullable: false,
        },
    }
}

/// A kind that takes the room of a type.
fn room(base: &BaseNode, sort: Sort, nullable: bool) -> KindNode {
    if let BaseNode::Pending { sort, .. } = base {
        return pending_room(*sort);
    }
    match sort {
        Sort::Basic(basic) => basic_room(basic, nullable),
        Sort::Enum(_) => KindNode::Enum {
            number: 0,
            nullable,
        },
        Sort::Union => KindNode::Union {
            number: 0,
            nullable: false,
        },
        Sort::Handle => KindNode::Handle {
            sort: HandleSort::Any,
            nullable: false,
        },
        _ => KindNode::Text { nullable: false },
    }
}

/// The members of a list along their ordinals, as far as their layout needs them.
fn drafts(
    alloc: Global,
    here: Here<'_>,
    members: &[Member<'_>],
    along: &[usize],
) -> Result<Vec<DraftField>, AllocError> {
    let mut drafts = Vec::new(alloc);
    for place in along {
        let Some(member) = members.get(*place) else {
            continue;
        };
        let Some(kind) = member.kind else {
            continue;
        };
        let sort = sort_of(alloc, here, &kind.base)?;
        let version = version_at(alloc, here, member.attributes)?;
        let draft = DraftField {
            name: Text::from_str(alloc, member.name.text.as_str())?,
            kind: Kind::new(room(&kind.base, sort, kind.nullable)),
            min_version: u32::try_from(version).unwrap_or(0),
            default: None,
        };
        drafts.push(draft)?;
    }
    Ok(drafts)
}

/// Adds the line of a field of a struct.
fn push_field(
    alloc: Global,
    text: &mut String,
    here: Here<'_>,
    ordinal: usize,
    member: &Member<'_>,
    draft: (&DraftField, &Place),
) -> Result<(), AllocError> {
    let (field, place) = draft;
    let name = member.name.text.as_str();
    write!(text, "  field {ordinal} {name} ")?;
    if let Some(kind) = member.kind {
        push_type(alloc, text, here, kind)?;
    }
    let Place { offset, bit, flag } = *place;
    let version = field.min_version;
    write!(text, " {offset} {bit} {version}")?;
    if let Some(Flag { offset, bit }) = flag {
        write!(text, " flag {offset} {bit}")?;
    }
    text.push_str("\n")
}

/// Adds the lines of versions.
fn push_versions(text: &mut String, rows: &[VersionRow]) -> Result<(), AllocError> {
    for row in rows {
        let VersionRow {
            version,
            fields,
            bytes,
        } = *row;
        write!(text, "  version {version} {fields} {bytes}\n")?;
    }
    Ok(())
}

/// Adds the lines of the fields and versions of a struct, whose members lie along these places in the list.
fn push_laid_out(
    alloc: Global,
    text: &mut String,
    here: Here<'_>,
    members: &[Member<'_>],
    along: &[usize],
    drafts: &[DraftField],
) -> Result<(), AllocError> {
    let places = layout::places(alloc, drafts)?;
    for (ordinal, draft) in drafts.iter().zip(&places).enumerate() {
        let member = along.get(ordinal).and_then(|place| members.get(*place));
        if let Some(member) = member {
            push_field(alloc, text, here, ordinal, member, draft)?;
        }
    }
    let rows = layout::version_rows(alloc, drafts, &places)?;
    push_versions(text, &rows)
}

/// Adds the lines of a struct, or of the parameters of a method, along their ordinals.
pub fn push_struct(
    alloc: Global,
    text: &mut String,
    here: Here<'_>,
    list: &MemberList<'_>,
) -> Result<(), AllocError> {
    let full = list.full.as_str();
    write!(text, "struct {full}\n")?;
    let along = places_along(alloc, &ordinals_of(alloc, &list.members)?)?;
    let drafts = drafts(alloc, here, &list.members, &along)?;
    push_laid_out(alloc, text, here, &list.members, &along, &drafts)
}

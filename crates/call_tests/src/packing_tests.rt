//! Worked places: bytes and bits from the end of the struct's header.

use field_packing::{pack, pack_fields};
use mj_base::Text;
use mj_schema::{DraftField, Kind, KindNode, Place, Width};
use std::test::Fail;

fn integer(width: Width) -> Kind {
    Kind::new(KindNode::Int {
        width,
        signed: true,
        nullable: false,
    })
}

#[test]
fn bools_share_bytes_and_holes_are_filled(rt: HostRuntime) -> Result<(), Fail> {
    let kinds = [
        Kind::new(KindNode::Bool { nullable: false }),
        integer(Width::Bits16),
        Kind::new(KindNode::Bool { nullable: false }),
        integer(Width::Bits8),
        integer(Width::Bits64),
        Kind::new(KindNode::Bool { nullable: false }),
    ];
    let places = pack(rt.alloc(), &kinds)?;
    let wanted = [(0, 0), (2, 0), (0, 1), (1, 0), (8, 0), (0, 2)];
    let wanted = wanted.map(|(offset, bit)| Place {
        offset,
        bit,
        flag: None,
    });
    assert!(rt; places.as_slice() == wanted.as_slice());
    Ok(())
}

#[test]
fn a_declared_bool_has_the_first_bit(rt: HostRuntime) -> Result<(), Fail> {
    let alloc = rt.alloc();
    let field = DraftField {
        name: Text::from_str(alloc, "flag")?,
        kind: Kind::new(KindNode::Bool { nullable: false }),
        min_version: 0,
        default: None,
    };
    let places = pack_fields(alloc, &[field])?;
    let wanted = [Place {
        offset: 0,
        bit: 0,
        flag: None,
    }];
    assert!(rt; places.as_slice() == wanted.as_slice());
    Ok(())
}

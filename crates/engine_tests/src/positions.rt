//! Positions, characters as numbers, and directions.
use regress_engine_input::{Backward, CodeUnit, Direction, ElementType, Forward, PositionType};
use regress_engine_inputs::{DefPosition, IndexPosition};
use std::test::Fail;

#[test]
fn positions_are_counted(rt: HostRuntime) -> Result<(), Fail> {
    IndexPosition::check_size();
    let at = DefPosition::new(3);
    let right = at + 4;
    let left = right - 5;
    let between = right - left;
    let mut moved = at;
    moved += 4;
    let further = moved - at;
    moved -= 6;
    let back = at - moved;
    assert!(rt; right == DefPosition::new(7) && left == DefPosition::new(2) && between == 5);
    assert!(rt; moved == DefPosition::new(1) && further == 4 && back == 2);
    let printed = format!(in rt.alloc(); "{at:?}")?;
    let are_ordered = left < at && at < right && at != right;
    assert!(rt; are_ordered && printed.as_str() == "IndexPosition { offset: 3 }");
    Ok(())
}

#[test]
fn numbers_are_characters_where_they_fit(rt: HostRuntime) -> Result<(), Fail> {
    assert!(rt;
        <char as ElementType>::try_from(0x1F600) == Some('\u{1F600}')
            && <char as ElementType>::try_from(0xD800).is_none()
            && <char as ElementType>::try_from(0x11_0000).is_none()
            && <u8 as ElementType>::try_from(0xFF) == Some(0xFF)
            && <u8 as ElementType>::try_from(0x100).is_none()
            && <u32 as ElementType>::try_from(0xD800) == Some(0xD800)
    );
    let from_char = '\u{E9}'.as_u32();
    let from_byte = 0x61_u8.as_u32();
    let from_number = 0xD800_u32.as_u32();
    assert!(rt; from_char == 0xE9 && from_byte == 0x61 && from_number == 0xD800);
    Ok(())
}

/// Whether a direction is forward.
fn is_forward<Dir: Direction>(_dir: Dir) -> bool {
    Dir::FORWARD
}

#[test]
fn directions_are_two(rt: HostRuntime) -> Result<(), Fail> {
    let printed = format!(in rt.alloc(); "{Forward:?} {Backward:?}")?;
    assert!(rt;
        is_forward(Forward::new())
            && !is_forward(Backward::new())
            && <u8 as CodeUnit>::IS_BYTE
            && !<u16 as CodeUnit>::IS_BYTE
            && printed.as_str() == "Forward Backward"
    );
    Ok(())
}

//! Rows that were pushed, and keys that were grouped, against values worked by hand.
use super::*;
use std::test::Fail;

/// A value of more than one number.
#[derive(Clone, Copy)]
struct Link {
    from: u32,
    is_cut: bool,
}

fn crosses<T: Send + Sync>() {}

#[test]
fn rows_cross_threads() {
    crosses::<Rows<u32>>();
    crosses::<Rows<Link>>();
}

#[test]
fn rows_stand_behind_one_another(rt: HostRuntime) -> Result<(), Fail> {
    let mut rows = Rows::new(rt.alloc());
    assert!(rt; rows.is_empty());
    assert_eq!(rt; rows.start(0), 0);
    rows.push(&[7u32, 8])?;
    rows.push(&[])?;
    rows.push(&[9])?;
    assert!(rt; !rows.is_empty());
    assert_eq!(rt; rows.len(), 3);
    assert_eq!(rt; rows.get(0), [7u32, 8].as_slice());
    assert_eq!(rt; rows.get(1), [].as_slice());
    assert_eq!(rt; rows.get(2), [9u32].as_slice());
    assert_eq!(rt; rows.items(), [7u32, 8, 9].as_slice());
    assert_eq!(rt;
        (rows.start(0), rows.start(1), rows.start(2), rows.start(3)),
        (0, 2, 2, 3)
    );
    Ok(())
}

#[test]
fn indices_are_grouped_by_key(rt: HostRuntime) -> Result<(), Fail> {
    let rows = Rows::grouped(rt.alloc(), 4, &[2, 0, 2, 3, 0])?;
    assert_eq!(rt; rows.len(), 4);
    assert_eq!(rt; rows.get(0), [1u32, 4].as_slice());
    assert_eq!(rt; rows.get(1), [].as_slice());
    assert_eq!(rt; rows.get(2), [0u32, 2].as_slice());
    assert_eq!(rt; rows.get(3), [3u32].as_slice());
    assert!(rt; Rows::grouped(rt.alloc(), 0, &[])?.is_empty());
    Ok(())
}

#[test]
fn values_are_selected_row_by_row(rt: HostRuntime) -> Result<(), Fail> {
    let indices = Rows::grouped(rt.alloc(), 3, &[2, 0, 2])?;
    let rows = indices.select(rt.alloc(), &[70u64, 80, 90])?;
    assert_eq!(rt; rows.len(), 3);
    assert_eq!(rt; rows.get(0), [80u64].as_slice());
    assert_eq!(rt; rows.get(1), [].as_slice());
    assert_eq!(rt; rows.get(2), [70u64, 90].as_slice());
    Ok(())
}

#[test]
fn a_row_of_links_has_each_part(rt: HostRuntime) -> Result<(), Fail> {
    let mut rows = Rows::new(rt.alloc());
    rows.push(&[
        Link {
            from: 3,
            is_cut: false,
        },
        Link {
            from: 5,
            is_cut: true,
        },
    ])?;
    let row = rows.get(0);
    assert_eq!(rt; row[1].from, 5);
    assert!(rt; row[1].is_cut && !row[0].is_cut);
    Ok(())
}

//! Cuts and plans whose results were worked by hand.
use super::*;
use std::test::Fail;

#[test]
fn the_third_of_four_references_is_cut(rt: HostRuntime) -> Result<(), Fail> {
    let reference = true;
    let links = [
        Link {
            source: 2,
            reader: 1,
            reference,
        },
        Link {
            source: 3,
            reader: 2,
            reference,
        },
        Link {
            source: 1,
            reader: 3,
            reference,
        },
        Link {
            source: 3,
            reader: 1,
            reference,
        },
    ];
    let cut = cut(rt.alloc(), 4, &links)?;
    assert_eq!(rt; cut.cuts.as_slice(), [false, false, true, false].as_slice());
    assert_eq!(rt; cut.order.as_slice(), [0, 3, 2, 1].as_slice());
    Ok(())
}

#[test]
fn a_reference_is_cut_where_inner_links_lead_back(rt: HostRuntime) -> Result<(), Fail> {
    let links = [
        Link {
            source: 2,
            reader: 0,
            reference: true,
        },
        Link {
            source: 0,
            reader: 1,
            reference: false,
        },
        Link {
            source: 1,
            reader: 2,
            reference: false,
        },
        Link {
            source: 1,
            reader: 1,
            reference: true,
        },
    ];
    let cut = cut(rt.alloc(), 3, &links)?;
    assert_eq!(rt; cut.cuts.as_slice(), [true, false, false, true].as_slice());
    assert_eq!(rt; cut.order.as_slice(), [0, 1, 2].as_slice());
    Ok(())
}

#[test]
fn a_ring_is_cut_at_its_last_link(rt: HostRuntime) -> Result<(), Fail> {
    let reference = true;
    let links = [
        Link {
            source: 1,
            reader: 0,
            reference,
        },
        Link {
            source: 2,
            reader: 1,
            reference,
        },
        Link {
            source: 3,
            reader: 2,
            reference,
        },
        Link {
            source: 4,
            reader: 3,
            reference,
        },
        Link {
            source: 0,
            reader: 4,
            reference,
        },
    ];
    let cut = cut(rt.alloc(), 5, &links)?;
    assert_eq!(rt;
        cut.cuts.as_slice(),
        [false, false, false, false, true].as_slice()
    );
    assert_eq!(rt; cut.order.as_slice(), [4, 3, 2, 1, 0].as_slice());
    Ok(())
}

#[test]
fn a_plan_has_the_in_links_of_its_nodes_one_after_another(rt: HostRuntime) -> Result<(), Fail> {
    let mut plan = Plan::new(rt.alloc());
    plan.push(7, &[])?;
    plan.push(4, &[0])?;
    plan.push(9, &[0, 1])?;
    assert_eq!(rt; plan.len(), 3);
    assert_eq!(rt; [plan.op(0), plan.op(1), plan.op(2)], [7, 4, 9]);
    assert_eq!(rt; plan.ins(1), [0].as_slice());
    assert_eq!(rt; plan.ins(2), [0, 1].as_slice());
    assert_eq!(rt; plan.sources(), [0, 0, 1].as_slice());
    assert_eq!(rt;
        [plan.first_link(1), plan.first_link(2), plan.first_link(3)],
        [0, 1, 3]
    );
    Ok(())
}

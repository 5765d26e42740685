//! What no contract says: that a call with enough memory succeeds.
use jd_layout::{Layout, LayoutFault};
use std::test::Fail;

#[test]
fn a_layout_locates_its_indexes(rt: HostRuntime) -> Result<(), Fail> {
    let layout = Layout::new(
        rt.alloc(),
        &[512, 512],
        &[2, 3, 4, 5, 6, 7],
        &[2, 3],
        &[7, 6, 5, 4, 3, 2],
    )?;
    assert!(rt; layout.locate(&[512, 512]).ok() == Some((5, 43_519)));
    assert!(rt; layout.locate(&[513, 1]).is_err());
    drop(layout);
    Ok(())
}

#[test]
fn counts_are_tested_before_processes(rt: HostRuntime) -> Result<(), Fail> {
    let refused = Layout::new(rt.alloc(), &[4], &[9, 9], &[3], &[2]).err();
    assert!(rt; refused == Some(LayoutFault::BadDist));
    Ok(())
}

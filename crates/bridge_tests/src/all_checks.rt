//! All checks. Those whose threads sleep have the same bells, and each has channels of its own.

use crate::parcels::{parcel_lines, parcel_rows};
use crate::permits_wake::a_permit_that_is_handed_over_wakes_who_waits_for_it;
use crate::rings::{on_bells, ring_rows};
use crate::{jobs, one_channel};
use ring_bridge::Bells;
use std::alloc::AllocGlobal;
use std::test::Fail;

#[test]
fn channels_over_words(rt: HostRuntime) -> Result<(), Fail> {
    let bells = Bells::new(rt.alloc())?;
    let permit = a_permit_that_is_handed_over_wakes_who_waits_for_it(rt.alloc());
    let found = (one_channel::found(&rt), jobs::found(&rt, &bells), permit);
    assert_eq!(rt; found, ([true; 14], [true; 4], true));
    Ok(())
}

#[test]
fn channels_of_owned_values(rt: HostRuntime) -> Result<(), Fail> {
    let bells = Bells::new(rt.alloc())?;
    let found = (
        parcel_rows::found(rt.alloc()),
        parcel_lines::found(&rt, &bells),
    );
    assert_eq!(rt; found, ([true; 11], [true; 7]));
    Ok(())
}

#[test]
fn rings(rt: HostRuntime) -> Result<(), Fail> {
    let bells = Bells::new(rt.alloc())?;
    let found = (ring_rows::found(rt.alloc()), on_bells::found(&rt, &bells));
    assert_eq!(rt; found, ([true; 9], [true; 12]));
    Ok(())
}

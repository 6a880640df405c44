//! Files that are made by the calls that are listed.

use crate::device::make;
use cm_samples::least_geometry;
use cm_stepped::{Broken, BytesFault, CallList, open_bytes};
use cm_verdict::{FileFault, OpenFault};
use std::alloc::Global;
use std::test::*;

/// A new file of the least sizes.
pub fn new_file(alloc: Global) -> Result<Vec<u8>, Fail> {
    let mut list = CallList::format(alloc, least_geometry())
        .ok()
        .ok_or("not listed")?;
    let mut file = Vec::new(alloc);
    for _ in 0..100 {
        let Some(call) = list.call() else {
            break;
        };
        make(&mut file, call)?;
        let _made = list.step(true);
    }
    Ok(file)
}

#[test]
fn a_listed_format_makes_a_cache(rt: HostRuntime) -> Result<(), Fail> {
    let file = new_file(rt.alloc())?;
    assert!(rt; open_bytes(rt.alloc(), &file).is_ok());
    let none = Vec::new(rt.alloc());
    let fault = open_bytes(rt.alloc(), &none).map(|_session| ());
    assert!(rt; fault == Err(BytesFault::Fault(OpenFault::File(FileFault::NotACache))));
    Ok(())
}

#[test]
fn no_call_is_listed_past_one_that_failed(rt: HostRuntime) -> Result<(), Fail> {
    let mut list = CallList::format(rt.alloc(), least_geometry())
        .ok()
        .ok_or("not listed")?;
    assert!(rt; list.step(true).is_ok());
    assert!(rt; list.call().is_some());
    assert!(rt; list.step(false) == Err(Broken));
    assert!(rt; list.call().is_none());
    assert!(rt; list.step(true) == Err(Broken));
    Ok(())
}

#[test]
fn an_upgrade_of_a_file_that_is_up_to_date_is_a_sync(rt: HostRuntime) -> Result<(), Fail> {
    let mut file = new_file(rt.alloc())?;
    let mut list = CallList::upgrade(rt.alloc(), &file)
        .ok()
        .ok_or("not listed")?;
    let call = list.call().ok_or("no call")?;
    make(&mut file, call)?;
    assert!(rt; list.step(true).is_ok());
    assert!(rt; list.call().is_none());
    assert!(rt; open_bytes(rt.alloc(), &file).is_ok());
    Ok(())
}

// What is only kept for speed: that cases know what they have found at rest. A body that always answers `false` is proved.
use std::alloc::Global;
use yw_cases::Cases;

/// Nothing is known of a case before it is looked at, and then that it rests.
fn knows_rest(alloc: Global) -> bool {
    let mut cases = Cases::new(alloc);
    !cases.is_at_rest(1) && matches!(cases.next_event(1), Ok(None)) && cases.is_at_rest(1)
}

#[test]
fn cases_know_what_rests(rt: HostRuntime) {
    assert!(rt; knows_rest(rt.alloc()));
}

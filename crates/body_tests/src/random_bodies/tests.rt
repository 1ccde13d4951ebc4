//! The test of the bodies.

use crate::random_bodies::trials::fault_of;

#[test]
fn bodies_agree_with_all_allowed_values(rt: HostRuntime) {
    for number in 0..1000 {
        let fault = fault_of(rt.alloc(), number).unwrap_or("");
        assert!(rt; fault.is_empty(), "body {number}: {fault}");
    }
}

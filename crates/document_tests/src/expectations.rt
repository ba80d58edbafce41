//! What ends a test. Each assertion and each text printed in it costs a proof of its own, so they
//! stand here once for all tests.

use std::process::Abort;

/// Ends the test, with the case, unless it is right.
pub(crate) fn expect(rt: &impl Abort, is_right: bool, case: &str) {
    assert!(rt; is_right, "{case}");
}

/// Ends the test, with the case and what was found, unless that is what is wanted.
pub(crate) fn expect_text(rt: &impl Abort, case: &str, found: &str, wanted: &str) {
    assert!(rt; found == wanted, "{case}\n{found}");
}

/// Ends the test, with both, unless the bytes are those that are wanted.
pub(crate) fn expect_bytes(rt: &impl Abort, found: &[u8], wanted: &[u8]) {
    assert_eq!(rt; found, wanted);
}

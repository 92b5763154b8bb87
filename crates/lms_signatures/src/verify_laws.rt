//! Laws over the equations alone.

ghost use Rattle.lms_signatures.specs.VerifyLaws.{SignedVerifies};

/// The test of a signature as a function is true exactly where RFC 8554's equations hold.
pub fn signed_verifies()
    ensures { SignedVerifies }
{}

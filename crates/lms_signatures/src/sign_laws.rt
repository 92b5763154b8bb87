//! Laws over the equations alone.

ghost use Rattle.lms_signatures.specs.SignLaws.{MadeVerifies, MadeIsSigned, NoIndexTwice};

/// What is made at an index of the tree verifies under the key of the secret, for every type of key,
/// secret, index and message.
pub fn made_verifies()
    ensures { MadeVerifies }
{}

/// The test of a signature as a function is true of what a signer makes.
pub fn made_is_signed()
    ensures { MadeIsSigned }
{}

/// Over any list of calls on a signer, with refusals between them, no index signs two messages.
pub fn no_index_twice()
    ensures { NoIndexTwice }
{}

//! The one-time signatures of LMS (RFC 8554), on four lanes of SHA-256: how they are made and verified.
#![tactic(auto)]

mod consts;
mod fault;
mod four;
mod key_tree;
mod lanes;
pub mod ots;
pub mod parts;
pub mod runs;
mod secret;
pub mod sign_laws;
mod signer;
mod signing;
pub mod tree;
pub mod types;
pub mod verify_laws;
mod verifying;

pub use fault::{NoMemory, SignFault};
pub use four::four_digests;
pub use parts::{LmsKey, LmsSignature, read_key, read_signature};
pub use signer::Signer;
pub use types::LmsFault;
pub use verifying::verifies;

//! What a method's family depends on in addition to its selector, and the families.
pub use arc_spec::signature::{Family, Signature};

//! The families of methods.
pub use arc_spec::family::{family, family_of_selector};

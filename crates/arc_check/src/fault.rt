//! Why a source is refused.
pub use arc_fault::check::CheckFault;

//! Why a program is refused.
pub use arc_fault::own::OwnFault;

//! Why a source is not parsed.

pub use arc_fault::parse::ParseFault;

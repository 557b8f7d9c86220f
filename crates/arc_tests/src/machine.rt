//! `arc_machine`: programs on devices that work and on ones that fail, and with a store that has too few blocks.

mod failing;
pub mod programs;

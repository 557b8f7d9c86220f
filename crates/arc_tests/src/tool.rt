//! `arc_tool`: what no row of `arc_rows` shows: devices that fail, want of memory, steps that go on, and long sources.

mod failing;
mod hostile;
mod served;
mod words;

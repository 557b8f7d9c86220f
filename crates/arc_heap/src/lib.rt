//! Stores of blocks of words.
//!
//! A store hands out blocks of 4, 8, 16, 32, 64 or 128 words of 64 bits. [`store::Store`] says what every
//! store promises: a block that is handed out is none of those that are out, has the least size
//! that serves, and is 0 throughout; and no call touches another block than its own.
//! [`plain::PlainStore`] is a store that grows as long as there is memory; it gives memory back only when
//! it is dropped, but blocks that were given back serve later requests of their size.
//!
//! What no contract here says: that a store which grows refuses a block only where memory is
//! refused. A `take` that is always None would meet its clauses, as would one that never uses a free
//! block; that neither is so is shown by tests. Of a store of fixed size the clause `full` says
//! exactly when a request is refused.
#![tactic(auto)]

pub mod class;
pub mod mark;
pub mod plain;
pub mod store;

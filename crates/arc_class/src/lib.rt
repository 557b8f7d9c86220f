//! Tables of what a source declares.
#![tactic(auto)]

mod building;
mod by_name;
mod classes;
mod counting;
pub mod fault;
mod fields;
mod heads;
mod kept;
pub mod law;
mod look;
mod methods;
mod nearest;
mod numbered;
mod owners;
mod root;
mod scopes;
mod site_rules;
pub mod table;
mod types;

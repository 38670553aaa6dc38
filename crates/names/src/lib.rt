// The keys of class members and the names that are made: `valid_prop_name`, `is_well_known_symbol_expr` and `gen_unique_name`.
#![tactic(auto)]

pub use prop_name::{Key, is_well_known_symbol_expr, valid_prop_name};

pub mod generated;
pub mod prop_name;
pub mod symbols;
pub mod unique;

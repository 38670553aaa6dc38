// The types of expressions: `expr_to_ts_type`, `pat_to_ts_fn_param`, `ident_to_ts_type` and `readonly_of`. A type is written where an Output stands, and
// its diagnostics where those of the Output stand, as far as there is room; a typing that fails goes back to where the type began.
#![tactic(auto)]

mod array;
mod bindings;
pub mod exprs;
mod fitting;
pub mod function;
mod keys;
mod leaf;
mod object;
mod readonly;
mod readonly_types;

// Items, declarations and namespaces: `transform_module_items`, `transform_module_stmt`, `decl_to_type_decl` and `transform_ts_ns_body`.
#![tactic(auto)]

mod declarations;
mod declarators;
mod enum_members;
mod enums;
mod exports;
pub mod module;

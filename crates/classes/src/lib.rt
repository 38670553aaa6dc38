// Classes, and the functions that they share with declarations: `class_body_to_type` and what it calls.
#![tactic(auto)]

pub mod class_body;
pub mod functions;
pub mod overload_list;

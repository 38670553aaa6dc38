// The definitions that every other crate is proved against, under specs/, and the theorems about them, under proofs/. No code.
#![tactic(auto)]

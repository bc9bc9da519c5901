// Definitions and laws that every crate above shares. No function.
#![tactic(auto)]

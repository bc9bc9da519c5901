// No function: what a token is refused for, and what a query answers or is refused for, stated without a reader, with the theorems that this is so.
#![tactic(auto)]

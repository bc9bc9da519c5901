// No function: what the demands promise, as theorems over the definitions that the contracts cite.
#![tactic(auto)]

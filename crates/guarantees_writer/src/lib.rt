// No function: the reference model of the writer, and what holds of its calls, one by one and in lists, as theorems.
#![tactic(auto)]

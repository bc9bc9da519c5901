// No function: what a well-formed file is (document 01, "Row of a file"), paths and depth, and the theorems on them.
#![tactic(auto)]

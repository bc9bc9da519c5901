// One token: a header with its numbers and its body, without items. Definitions and laws; no function.
#![tactic(auto)]

// No function: what prune leaves is exactly what the entry reaches (document 02, W-204).
#![tactic(auto)]

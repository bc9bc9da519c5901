// No function: both modes of reading numbers give the same answer, unless the strict one is OVERLONG (document 02, W-203).
#![tactic(auto)]

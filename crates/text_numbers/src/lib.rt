// Numbers as they are written: theorems, and no code.

#![tactic(auto)]

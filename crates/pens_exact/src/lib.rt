// What the pen bench may count on, as theorems. No code.
#![tactic(auto)]

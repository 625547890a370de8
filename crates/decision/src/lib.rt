// Theory only: the definitions and theorems are in specs/.
#![tactic(auto)]

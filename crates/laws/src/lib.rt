// What is proved of the rules: the theorems are in specs/.
#![tactic(auto)]

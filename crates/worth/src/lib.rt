// What an amount is worth, and the best of them: the definitions and theorems are in specs/.
#![tactic(auto)]

// What an actuary may rely on beyond a call's own answer: the theorems are in specs/.
#![tactic(auto)]

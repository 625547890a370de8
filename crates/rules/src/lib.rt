// The rules of documents 01 and 02: the definitions and what is proved of them are in specs/.
#![tactic(auto)]

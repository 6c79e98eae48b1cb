// The worked examples of RULES 13.11: one table, one statement. There is no code here.
#![tactic(auto)]

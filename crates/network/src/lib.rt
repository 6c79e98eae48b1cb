// Nodes that claim addresses on one bus (RULES 16), as statements over the calls of `claim` and `nodes`. There is no
// code here.
#![tactic(auto)]

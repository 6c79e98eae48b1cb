// The demands on the library (RULES 13.1 to 13.5), as statements over the definitions of the crates below. There is no
// code here.
#![tactic(auto)]

// The demands and the examples, named once more from outside: one that is dropped is missed here. There is no code.
#![tactic(auto)]

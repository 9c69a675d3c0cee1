// No code: what a kernel is, and that the automaton knows it. Read specs/ first.

#![tactic(auto)]

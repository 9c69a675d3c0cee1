// No code: what Mundreff promises, in the words of those who asked for it. Read specs/ first; proofs/ cites the crates below.

#![tactic(auto)]

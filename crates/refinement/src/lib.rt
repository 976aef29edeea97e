// The scope's group as runs of the abstract automaton, and demand 3 from them: all of it is in specs/ and proofs/.
#![tactic(auto)]

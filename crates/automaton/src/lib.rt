// One end-point as the source's automaton, the group of them, and the proof of what every group promises: virtual synchrony. No code: definitions and laws.
#![tactic(auto)]

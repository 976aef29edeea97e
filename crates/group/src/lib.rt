// The group of end-points and channels, as definitions. No code.
#![tactic(auto)]

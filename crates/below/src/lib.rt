// Definitions and laws over the numbers below n, for any n. No code: loops over eight senders or four slots cite the laws.
#![tactic(auto)]

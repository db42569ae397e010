// That each statement settles the outcome of a call; no code.

#![tactic(auto)]

// What the code does to the lent tables, operation by operation, and that it is what is written; no code.

#![tactic(auto)]

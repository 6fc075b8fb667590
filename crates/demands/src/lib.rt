// No code: the end theorems of the three demands in one record, on what every routine is proved to answer.
#![tactic(auto)]

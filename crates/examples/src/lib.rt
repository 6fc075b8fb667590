#![tactic(auto)]

// One table and one theorem, and no function: the marked examples stand in specs/, that they hold in proofs/.

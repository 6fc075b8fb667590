#![tactic(auto)]

// Laws alone, and no function: what they speak of is defined in specs/, the theorems stand in proofs/.

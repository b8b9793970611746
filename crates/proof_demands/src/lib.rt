// No code: the buyer's demands as theorems about the manager's definitions. Statements stand in specs/, proofs in proofs/.
#![tactic(auto)]

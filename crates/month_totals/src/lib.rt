// No code: what is written of a file, said without the program's table, and reports that count otherwise refuted. Statements stand in
// specs/, proofs in proofs/.
#![tactic(auto)]

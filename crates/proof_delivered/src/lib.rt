// No code: the one list of all that is settled, and its proof. What each line says stands in the crate that it comes from.
#![tactic(auto)]

// No code: what each call asks of a card, when the table refuses it and what it then does, as definitions in specs/ with a law for each
// call; the functions that do it stand in `record_calls`.
#![tactic(auto)]

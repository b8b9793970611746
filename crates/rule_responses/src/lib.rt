// No code: the bytes of each response, as definitions in specs/ over a card of any number of places; an engine's writers are proved
// equal to them.
#![tactic(auto)]

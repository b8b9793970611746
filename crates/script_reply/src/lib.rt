// No code: what a script is answered, line by line, as definitions in specs/, and that it is as if soundness were asked at every call; the
// functions stand in `script_session`.
#![tactic(auto)]

// No code: the calls, the table, what each call is answered and what runs of calls are made of, as definitions in specs/; the engines that
// answer so stand above, each proved equal to `step`.
#![tactic(auto)]

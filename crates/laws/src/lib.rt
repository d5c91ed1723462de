// No code: what follows from the definitions stands in specs/.
#![tactic(auto)]

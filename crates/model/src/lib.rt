// No code: the specification's definitions stand in specs/.
#![tactic(auto)]

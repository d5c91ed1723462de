// No code: what the four functions return and leave in their slices stands in specs/.
#![tactic(auto)]

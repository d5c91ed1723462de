// No code: what the searches owe stands in specs/.
#![tactic(auto)]

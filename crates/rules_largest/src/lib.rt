// No code: a worked sheet of the largest sizes stands in specs/.
#![tactic(auto)]

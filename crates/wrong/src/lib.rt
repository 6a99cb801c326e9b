// Controllers that the demands exclude: definitions and computed facts alone, in specs/.
#![tactic(auto)]

// Controllers that are wrong about bookings, which demand 3 excludes: definitions and computed facts alone, in specs/.
#![tactic(auto)]

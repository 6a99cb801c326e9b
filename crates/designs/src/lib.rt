// Controllers made of a design, and the right one spoilt in a reply: definitions and theorems alone, in specs/.
#![tactic(auto)]

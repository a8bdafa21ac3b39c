// Demand 3: a text's one reading agrees with its sheet. Definitions alone: see specs/.

#![tactic(auto)]

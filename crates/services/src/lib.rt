// What the services answer. Definitions alone: see specs/.

#![tactic(auto)]

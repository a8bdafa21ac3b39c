// Definitions alone: bytes, characters and the name rule. See specs/.

#![tactic(auto)]

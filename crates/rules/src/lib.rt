// Rules 9 to 12 on a decoded sheet, and the answer of a check. Definitions alone: see specs/.

#![tactic(auto)]

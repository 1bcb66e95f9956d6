// A writing, as it is stated: what the rows of a layout spell, their bytes, and the refusals 14 to 17. `entry_writer` has the code.
#![tactic(auto)]

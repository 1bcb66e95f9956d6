// A reading, as it is stated: what the layouts of a payload do to a cursor and the table that it fills. `leaf` has the code.
#![tactic(auto)]

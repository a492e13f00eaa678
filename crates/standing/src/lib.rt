// Theory without code: how the records of a node table stand in the bytes, and what a walk over them shows.
#![tactic(auto)]

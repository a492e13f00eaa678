// Theory without code: the blind search over the flat node table, and what it may conclude.
#![tactic(auto)]

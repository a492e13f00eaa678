// Theory without code: what was demanded, as theorems under names to look up.
#![tactic(auto)]

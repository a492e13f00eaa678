// Theory without code: the questions over the plain list, and what each public call gives.
#![tactic(auto)]

// Theory without code: symbols, what two words share, their order, and rising lists of words.
#![tactic(auto)]

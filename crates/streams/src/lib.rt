// Theory without code: how the entries of a book stand in its bytes, and what local tests of them show.
#![tactic(auto)]

// No functions: that what the public calls promise is what demand 3, as their caller sees it, asks of them.
#![tactic(auto)]

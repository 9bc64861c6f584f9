// Lists, runs of words and records in runs: definitions in specs/, laws in proofs/. Nothing of DuckLake, and no function.
#![tactic(auto)]

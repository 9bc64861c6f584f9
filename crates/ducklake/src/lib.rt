#![tactic(auto)]

// Document 01 as definitions: specs/ has a file for each of its sections, proofs/ what is shown of them.

#![tactic(auto)]

// What the definitions of the calls come to, as proofs of the code cite it: refusals in a row, the promise from equations, what a commit, an expiry, a
// cleanup and Fresh leave in each run, and what sound tables give. No function stands here.

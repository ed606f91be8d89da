// What proofs all over the tree cite, once. There is no code here: `specs/` has the definitions, `proofs/` their laws.
#![tactic(auto)]

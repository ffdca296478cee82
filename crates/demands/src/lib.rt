// Demands 1, 2 and 3 over the definitions that the public contracts cite, and the starred samples: theory alone,
// the demands in specs/ and their proofs in proofs/.
#![tactic(auto)]

// No code of its own: what the calls' promises come to together stands in specs/ and is proved in proofs/.
#![tactic(auto)]

// First units of MUGI that annex C.1 prints, computed from the cipher's definitions. There is no code here: proofs/ has the claims.

#![tactic(auto)]

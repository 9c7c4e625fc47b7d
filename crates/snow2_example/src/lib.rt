// First units of SNOW 2.0 that annex C.2 and C.3 prints, computed from the cipher's definitions. There is no code here: proofs/ has the claims.

#![tactic(auto)]

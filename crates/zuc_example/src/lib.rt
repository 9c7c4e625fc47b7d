// First units of ZUC that annex C.7 prints, computed from the cipher's definitions. There is no code here: proofs/ has the claims.

#![tactic(auto)]

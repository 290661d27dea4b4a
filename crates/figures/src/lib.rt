// Values of the documents, computed from the definitions (proofs/). There is no code: a wrong definition that only they show fails this crate.
#![tactic(auto)]

//! What a database shows beside which there are no packs. Specs and lemmas, without code.
#![tactic(auto)]

// The proof that every run of a house keeps the law about the order of messages. Definitions stand in the crate of the rules.
#![tactic(auto)]

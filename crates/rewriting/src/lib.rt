// The theory of term rewriting over the trees of a card, which every contract of the crates above cites.
//
// The definitions stand in specs/, a file for each topic: terms and substitution, cards and their trees, places, matching,
// closures of a relation, steps with reaching, convertible, confluent and normal form, subterms and sheets, sites and the
// shared step, runs, counting. They compute where an engine has to be compared with them.
//
// Each function below is a law: it does nothing, and its contract is the statement, named after what it says. The check
// fails unless the statement is proved. Other crates use a law through the lemma that its answer in proofs/ cites.

#![tactic(auto)]

pub mod counting;
pub mod matching;
pub mod places;
pub mod runs;
pub mod samples;
pub mod sites;
pub mod steps;
pub mod subterms;
pub mod terms;

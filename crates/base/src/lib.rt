// General mathematics and the vocabulary of answers, nothing of which is about docks: outcomes and rows, sums, scans, searches and lists by
// index, walks over arrays, stores one after the other, tests computed at every number, and what an outcome says of its steps.
// Promises: definitions (specs/) and laws (proofs/) for the crates above. It has no code. Uses nothing but the language.
#![tactic(auto)]

// Rooms with several counting tables (document 02, request 9): plans for c tables, Jackson's filling of the tables, overloaded intervals,
// and the law that a plan exists exactly when no interval is overloaded, once for all c. A room with c tables is a day of one table whose
// minutes are c times as many, the slots: what the law of plans says of that day is said here of the tables.
// Promises: definitions (specs/) and laws (proofs/) for the crates above. It has no code. Uses the crates base, list, windows and jackson.
#![tactic(auto)]

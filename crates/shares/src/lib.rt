// A room's share of a buffer of lists (document 02, "Eight rooms at one control desk"): the list at its front.
// Promises: `read_front` reads the list at the front of bytes, whatever follows it. It is total: its contract states the answer by equality
// with the definition of specs/Shares.antt, and beside it the law of specs/Laws.antt, for every input. Uses the crates base and list,
// and of format its definitions, its reader's promise and what its round trips rest on.
#![tactic(auto)]

mod front;

// The bytes of a share: as many as a longest list has.
pub const SHARE_BYTES: usize = 965;

pub use front::read_front;

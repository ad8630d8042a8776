// The theorems, each the contract of a function, which answers true and promises that too, so that an edit of it is refused. The proof is that of the function beside it, which has no code; each is by itself, so that what one says can be changed alone.
#![tactic(auto)]

pub mod bounds;
pub mod edges;
pub mod limit;
pub mod made;
pub mod progress;
pub mod regular;
pub mod sample;

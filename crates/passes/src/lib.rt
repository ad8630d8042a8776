// Calls by pass. A head has one pass at a time, which says what it may ask; a pass is used up by what changes it.
#![tactic(auto)]

use protocol::refusal::Refusal;

pub mod joining;
pub mod membership;
pub mod swapping;
pub mod writing;

// The pass of a head that may still have to learn the value.
#[derive(Drop)]
pub struct Newcomer {
    name: u32,
}

// The pass of a head that was active: it may read and write.
#[derive(Drop)]
pub struct Member {
    name: u32,
}

// The pass of a head that has begun to write.
#[derive(Drop)]
pub struct Writer {
    name: u32,
}

// Why a call by pass is refused, and the pass, which is handed back.
#[derive(Drop)]
pub struct Refused<P> {
    pub pass: P,
    pub why: Refusal,
}

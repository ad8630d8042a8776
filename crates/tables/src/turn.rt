// A head's turn.
use records::copied::Copied;

// What a head does in a tick. Any turn can be asked about, also one whose copy is none, which turns nobody active.
#[derive(Clone, Copy, PartialEq, Eq, Debug)]
pub enum Turn<V> {
    Rest,
    Inquire,
    Activate(Copied<V>),
    Strand,
}

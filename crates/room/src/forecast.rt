// The mail by its counts.
ghost use Rattle.std.specs.Prelude.{◌≤◌, length};
ghost use Rattle.std.specs.List.{sum};

use tables::head::Head;

// The heads, how many places and items the mail has and, at the place of the first head with a name, how many of the items are REPLY items to that name. There is no heap, so these are an array beside the lent heads.
#[derive(Drop)]
pub(crate) struct Forecast<'a, V> {
    pub heads: &'a [Head<V>],
    pub places: usize,
    pub items: usize,
    pub replies: [usize; 64],
    ghost few: { length heads.now ≤ 64 },
    ghost within: { items ≤ places },
    ghost among: { sum replies ≤ items },
}

// What happens to the places of the heads.
ghost use Rattle.std.specs.Prelude.{◌≡◌, ◌^◌, ◌<◌, ◌≤◌, map, length};
ghost use Rattle.protocol.specs.Heads.{forgetting};
ghost use Rattle.protocol.specs.Make.{originals};
ghost use Rattle.tables.specs.HeadPlaces.{heads_of, lacking};

use crate::changes::{forget, original};
use tables::head::Head;

// No head holds this name any more.
pub fn forget_everywhere<V: Copy>(heads: &mut [Head<V>], name: u32)
    ensures { heads_of heads.new ≡ map (forgetting name) (heads_of heads.old) }
{
    for h in heads.iter_mut() {
        *h = forget(*h, name);
    }
}

// The heads that come with a site, named from 1 on, each in its place; what they lack stays as it was.
// Where there are more places than names, all stay as they were.
pub fn fill<V: Copy>(heads: &mut [Head<V>], start: V)
    ensures filled { length heads.old < 2 ^ 32 → heads_of heads.new ≡ originals start 1 (map lacking (heads_of heads.old)) }
    ensures kept { 2 ^ 32 ≤ length heads.old → heads.new ≡ heads.old }
{
    if heads.len() > u32::MAX as usize {
        return;
    }
    // the casts lose nothing, which is proved; a conversion would have an error that cannot come
    for (i, h) in heads.iter_mut().enumerate() {
        *h = original(*h, i as u32 + 1, start);
    }
}

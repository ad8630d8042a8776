// Searches over the heads.
ghost use Rattle.std.specs.Prelude.{◌≡◌, ◌-◌};
ghost use Rattle.protocol.specs.Heads.{is_named};
ghost use Rattle.tables.specs.HeadPlaces.{head_of};
ghost use Rattle.tables.specs.FirstPlaces.{place_of};

use tables::head::Head;

// The place of the head with this name.
// Searches and counts over the lent tables are written out as loops here, by a rule of this project.
pub fn find<V: Copy>(heads: &[Head<V>], name: u32) -> Option<usize>
    ensures { result ≡ place_of (λ h. is_named name (head_of h)) heads.now }
{
    for (i, h) in heads.iter().enumerate() {
        if has_name(*h, name) {
            return Some(i);
        }
    }
    None
}

// Whether the head has this name.
pub fn has_name<V: Copy>(h: Head<V>, name: u32) -> bool
    ensures { result ≡ is_named name (head_of h) }
{
    h.name == name
}

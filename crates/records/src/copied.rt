// A value with its stamp.
ghost use Rattle.std.specs.Prelude.{◌≡◌, ◌-◌, is_some, None};
ghost use Rattle.protocol.specs.Heads.{newer};
ghost use Rattle.records.specs.Copies.{copied};

// A negative stamp is no copy, and then the value means nothing. It is no Option, since places are lent as they come, and hold a signed stamp by the rules.
#[derive(Clone, Copy, PartialEq, Eq, Debug)]
pub struct Copied<V> {
    pub stamp: i64,
    pub value: V,
}

impl<V: Copy> Copied<V> {
    // Whether a copy is there.
    pub fn is_there(self) -> bool
        ensures { result ≡ is_some (copied self) }
    {
        0 <= self.stamp
    }

    // No copy.
    pub fn cleared(self) -> Copied<V>
        ensures { copied result ≡ None }
    {
        Copied { stamp: -1, ..self }
    }

    // The other copy where its stamp is higher, else this one.
    pub fn newer(self, other: Copied<V>) -> Copied<V>
        ensures { copied result ≡ newer (copied self) (copied other) }
    {
        if other.is_there() && self.stamp < other.stamp {
            other
        } else {
            self
        }
    }
}

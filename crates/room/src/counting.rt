// What is put into the mail and dropped from it, by the counts.
ghost use Rattle.std.specs.Prelude.{◌≡◌, ℕ, ◌+◌, ◌-◌, ◌<◌, leb, List, [], ◌∷◌, ◌++◌, length, if◌then◌else◌, Some, None, Option as Maybe, ◌≢◌};
ghost use Rattle.std.specs.Option.{ForSome};
ghost use Rattle.protocol.specs.declared.refusal.Refusal.TheVariants.{NoRoom};
ghost use Rattle.protocol.specs.Heads.{Head as HeadTold, Copy as CopyOf};
ghost use Rattle.protocol.specs.Items.{Item, inquiry, reply, is_reply_to, dropping, put, to_each};
ghost use Rattle.records.specs.Passing.{Passes};
ghost use Rattle.room.specs.Counting.{Foresees, Followed, place_named};

use crate::forecast::Forecast;
use heads::searches::find;
use protocol::refusal::Refusal;
use tables::head::Head;

impl<V: Copy> Forecast<'_, V> {
    // The place of the first head with this name.
    pub(crate) fn place(&self, name: u32) -> Option<usize>
        ensures named { result ≡ place_named name self.now.heads.now }
        ensures inside { ForSome result (λ k. k < length self.now.heads.now) }
    {
        find(self.heads, name)
    }

    // One REPLY more, to this name.
    pub(crate) fn add_reply(&mut self, name: u32)
        requires { self.old.items < self.old.places }
        ensures { (heads : List (Head V)) (places : ℕ) (is : List (Item V)) (a t : ℕ) (c : Maybe (CopyOf V)) → Foresees heads places is self.old → Foresees heads places (is ++ reply a name t c ∷ []) self.new }
    {
        self.items += 1;
        if let Some(k) = self.place(name) {
            self.replies[k] += 1;
        }
    }

    // No REPLY items to this name of a head any more.
    pub(crate) fn drop_replies(&mut self, name: u32)
        ensures { (heads : List (Head V)) (places : ℕ) (is : List (Item V)) → (place_named name heads ≢ None) → Foresees heads places is self.old → Foresees heads places (dropping (is_reply_to name) is) self.new }
    {
        if let Some(k) = self.place(name) {
            self.items -= self.replies[k];
            self.replies[k] = 0;
        }
    }

    // An INQUIRY to every head but one.
    pub(crate) fn add_inquiries(&mut self) -> Result<(), Refusal>
        ensures { (heads : List (Head V)) (places : ℕ) (is : List (Item V)) (a t : ℕ) (others : List (HeadTold V)) → length others ≡ length heads - 1 → Foresees heads places is self.old → Followed heads places (put places is (to_each (λ b. inquiry a b t) others)) result self.new }
    {
        let others = self.heads.len().saturating_sub(1);
        self.check_room(others)?;
        self.items += others;
        Ok(())
    }

    // Whether so many items more find their places.
    pub(crate) fn check_room(&self, new: usize) -> Result<(), Refusal>
        ensures { Passes (if leb (self.now.items + new) self.now.places then None else Some NoRoom) result }
    {
        if self.places - self.items < new {
            return Err(Refusal::NoRoom);
        }
        Ok(())
    }
}

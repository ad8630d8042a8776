// The turns of a tick, followed by the counts of the mail alone.
ghost use Rattle.std.specs.Prelude.{◌≡◌, ℕ, ◌+◌, ◌<◌, List, [], map, length, take, drop, is_some, if◌then◌else◌, Some, None, filter, Option as Maybe, slice_index_or};
ghost use Rattle.protocol.specs.declared.refusal.Refusal.TheVariants.{NoRoom};
ghost use Rattle.protocol.specs.Heads.{inquiring_named, Copy as CopyOf};
ghost use Rattle.protocol.specs.Items.{Item, reply, put};
ghost use Rattle.protocol.specs.Tick.{turn as turn_told, turn_mail, turns_mail};
ghost use Rattle.records.specs.Passing.{Passes};
ghost use Rattle.tables.specs.HeadPlaces.{head_of, heads_of};
ghost use Rattle.room.specs.Amid.{turned_heads, amid};
ghost use Rattle.room.specs.Counting.{Foresees, Followed};

use crate::forecast::Forecast;
use protocol::refusal::Refusal;
use records::clock::Clock;
use tables::head::Head;
use tables::turn::Turn;
use turning::inquirers::inquires;
use turning::turn::{turn_at, turned};

impl<V: Copy> Forecast<'_, V> {
    // Whether the items find their places in every turn of the tick that makes the time that of the clock.
    pub(crate) fn follow_all(&mut self, clock: Clock) -> Result<(), Refusal>
        ensures { (heads : List (Head V)) (places : ℕ) (is : List (Item V)) → Foresees heads places is self.old → Passes (if is_some (turns_mail places clock.delay clock.time [] (heads_of heads) is) then None else Some NoRoom) result }
    {
        let heads = self.heads;
        for (i, h) in heads.iter().enumerate() {
            self.follow(i, *h, clock)?;
        }
        Ok(())
    }

    // The turn of the head in place i.
    fn follow(&mut self, i: usize, h: Head<V>, clock: Clock) -> Result<(), Refusal>
        ensures { (heads : List (Head V)) (places : ℕ) (is : List (Item V)) → i < length heads → h ≡ slice_index_or heads i h → Foresees heads places is self.old → Followed heads places (turn_mail places clock.time (turned_heads clock.delay clock.time (take i heads)) (head_of h) (heads_of (drop (i + 1) heads)) is (turn_told clock.delay clock.time (head_of h))) result self.new }
    {
        match turn_at(&h, clock) {
            Turn::Activate(copy) if copy.is_there() => {
                self.drop_replies(h.name);
                self.add_replies(h.held.as_slice(), i, clock)
            }
            Turn::Rest | Turn::Activate(_) => Ok(()),
            Turn::Inquire => self.add_inquiries(),
            Turn::Strand => {
                self.drop_replies(h.name);
                Ok(())
            }
        }
    }

    // A REPLY to each of these names whose head is present and inquiring when the heads up to place i have turned.
    fn add_replies(&mut self, to: &[u32], i: usize, clock: Clock) -> Result<(), Refusal>
        ensures { (heads : List (Head V)) (places : ℕ) (is : List (Item V)) (a : ℕ) (c : Maybe (CopyOf V)) → Foresees heads places is self.old → Followed heads places (put places is (map (λ x. reply a x clock.time c) (filter (λ x. inquiring_named x (amid clock.delay clock.time (i + 1) heads)) to.now))) result self.new }
    {
        for x in to {
            if self.is_inquiring(*x, i, clock) {
                self.check_room(1)?;
                self.add_reply(*x);
            }
        }
        Ok(())
    }

    // Whether a head with this name is present and inquiring when the heads up to place i have turned.
    fn is_inquiring(&self, name: u32, i: usize, clock: Clock) -> bool
        ensures { result ≡ inquiring_named name (amid clock.delay clock.time (i + 1) self.now.heads.now) }
    {
        let heads = self.heads;
        let Some(k) = self.place(name) else {
            return false;
        };
        let h = heads[k];
        if k <= i {
            inquires(turned(h, turn_at(&h, clock), clock.time).state)
        } else {
            inquires(h.state)
        }
    }
}

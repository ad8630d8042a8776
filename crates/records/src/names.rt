// Up to 64 names.
ghost use Rattle.std.specs.Prelude.{◌≡◌, ℕ, ◌+◌, ◌<◌, ◌≤◌, Bool, true, false, [], ◌∷◌, ◌++◌, length, is_some, filter, nat_eq, nat_le};
ghost use Rattle.protocol.specs.Places.{first};
ghost use Rattle.records.specs.NameLists.{names_of, joined, has_room};

// How many names there can be.
pub const MOST_NAMES: usize = 64;

// A test of names.
pub trait NameTest {
    // Whether a name passes.
    ghost passing: { Self → ℕ → Bool };

    fn passes(&self, name: u32) -> bool
        ensures { result ≡ passing self.now name };
}

// The first `count` of the list, in order of arrival; a count above 64 is 64. There is no heap, and places are plain records of one size, so it is an array with its length.
#[derive(Clone, Copy, PartialEq, Eq, Debug)]
pub struct Names {
    pub list: [u32; MOST_NAMES],
    pub count: usize,
}

impl Names {
    // No names.
    pub fn new() -> Names
        ensures { names_of result ≡ [] }
    {
        Names {
            list: [0; MOST_NAMES],
            count: 0,
        }
    }

    // The names.
    pub fn as_slice(&self) -> &[u32]
        ensures { result.now ≡ names_of self.now }
    {
        &self.list[..self.count.min(MOST_NAMES)]
    }

    // Whether the name is one of them.
    pub fn contains(&self, name: u32) -> bool
        ensures { result ≡ is_some (first (nat_eq name) (names_of self.now)) }
    {
        self.as_slice().contains(&name)
    }

    // Whether there is room for no other name.
    pub fn is_full(&self) -> bool
        ensures { result ≡ nat_le 64 (length (names_of self.now)) }
    {
        self.count >= MOST_NAMES
    }

    // The same array without names.
    pub fn cleared(self) -> Names
        ensures { names_of result ≡ [] }
    {
        Names { count: 0, ..self }
    }

    // Puts the name last; where there is no room they stay as they were.
    pub fn push(&mut self, name: u32)
        ensures put { self.old.count < 64 → names_of self.new ≡ names_of self.old ++ name ∷ [] }
        ensures count { self.old.count < 64 → self.new.count ≡ self.old.count + 1 }
        ensures full { 64 ≤ self.old.count → self.new ≡ self.old }
    {
        if !self.is_full() {
            self.list[self.count] = name;
            self.count += 1;
        }
    }

    // The names and this one; one that is there already is not added again. Where there is no room they stay as they were.
    pub fn with(self, name: u32) -> Names
        ensures put { has_room name (names_of self) ≡ true → names_of result ≡ joined name (names_of self) }
        ensures full { has_room name (names_of self) ≡ false → result ≡ self }
    {
        let mut more = self;
        if !self.contains(name) {
            more.push(name);
        }
        more
    }

    // The names that pass, in their order.
    pub fn filtered<T: NameTest>(self, test: &T) -> Names
        ensures { names_of result ≡ filter (T.NameTest.passing test.now) (names_of self) }
    {
        let mut passed = self.cleared();
        for x in self.as_slice() {
            if test.passes(*x) {
                passed.push(*x);
            }
        }
        passed
    }
}

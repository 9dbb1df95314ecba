//! The first-in list: a ring in the caller's slots.
ghost use Rattle.std.specs.Prelude.{◌≡◌, ◌<◌, true, false, List, [], ◌∷◌, ◌++◌, length, drop, if◌then◌else◌, Some, nat_lt};
ghost use Rattle.first_in.specs.Items.{items, room, oldest, Gathered};
ghost use Rattle.first_in.specs.Places.{place_of};

/// A list of at most as many items as the lent slots; the item that came in first is handed out first.
// Counts beside slots, and no heap of the library's: the memory is the caller's. The clauses `named` say that a list goes on lending the slots that it was made over: by them the caller knows what
// the slots hold in the end.
#[derive(Drop)]
pub struct FirstIn<'a, T> {
    slots: &'a mut [T],
    head: usize,
    len: usize,
}

impl<'a, T: Copy> FirstIn<'a, T> {
    /// An empty list over `slots`.
    pub fn new(slots: &'a mut [T]) -> Self
        ensures items { items result ≡ [] }
        ensures room { room result ≡ length slots.old }
        ensures gathered { Gathered slots.old result }
        ensures named { result.slots.ghost_name ≡ slots.entry.ghost_name }
    {
        FirstIn {
            slots,
            head: 0,
            len: 0,
        }
    }

    /// How many items the list holds.
    pub fn len(&self) -> usize
        ensures { result ≡ length (items self.now) }
    {
        self.len.min(self.capacity())
    }

    /// How many items the list can hold.
    pub fn capacity(&self) -> usize
        ensures { result ≡ room self.now }
    {
        self.slots.len()
    }

    /// Puts `x` behind the other items and answers true, or answers false and changes nothing where every slot holds
    /// an item.
    pub fn push(&mut self, x: T) -> bool
        ensures answer { result ≡ nat_lt (length (items self.old)) (room self.old) }
        ensures items { items self.new ≡ (if result then items self.old ++ x ∷ [] else items self.old) }
        ensures room { room self.new ≡ room self.old }
        ensures same { result ≡ false → self.new ≡ self.old }
        ensures gathered { (start : List T) → Gathered start self.old → Gathered start self.new }
        ensures named { self.new.slots.ghost_name ≡ self.old.slots.ghost_name }
    {
        if self.len() >= self.capacity() {
            return false;
        }
        self.put(x);
        true
    }

    /// Hands out the oldest item, or nothing where there is none.
    pub fn pop(&mut self) -> Option<T>
        ensures answer { result ≡ oldest (items self.old) }
        ensures items { items self.new ≡ drop 1 (items self.old) }
        ensures room { room self.new ≡ room self.old }
        ensures same { items self.old ≡ [] → self.new ≡ self.old }
        ensures named { self.new.slots.ghost_name ≡ self.old.slots.ghost_name }
    {
        if self.is_empty() {
            return None;
        }
        let x = self.item(0);
        self.skip();
        Some(x)
    }

    /// Gives the slots back and says how many items the list held. Where items were only pushed, the slots hold them
    /// from the first slot on, and the slots behind them hold what they held.
    pub fn finish(self) -> usize
        ensures count { result ≡ length (items self.entry) }
        ensures slots { (start : List T) → Gathered start self.entry → self.exit.0.now ≡ items self.entry ++ drop result start }
    {
        self.len()
    }

    /// Whether the list holds nothing.
    fn is_empty(&self) -> bool
        ensures empty { result ≡ true → items self.now ≡ [] }
        ensures some { result ≡ false → 0 < length (items self.now) }
    {
        self.len() == 0
    }

    /// The slot of item `n`, counted from the oldest. A `head` past the end is read as 0, so that every list has a
    /// reading and none needs an invariant.
    fn slot(&self, n: usize) -> usize
        ensures { result ≡ place_of self.now.head n (room self.now) }
    {
        let room = self.capacity();
        let start = if self.head < room { self.head } else { 0 };
        let behind = room - start;
        if n < behind { start + n } else { n - behind }
    }

    /// Item `n`, counted from the oldest. Only a `&mut` of the list tells that its slots fit the memory.
    fn item(&mut self, n: usize) -> T
        requires { n < length (items self.old) }
        ensures answer { oldest (drop n (items self.old)) ≡ Some result }
        ensures same { self.new ≡ self.old }
    {
        let at = self.slot(n);
        self.slots[at]
    }

    /// Puts `x` behind the other items.
    fn put(&mut self, x: T)
        requires { length (items self.old) < room self.old }
        ensures items { items self.new ≡ items self.old ++ x ∷ [] }
        ensures room { room self.new ≡ room self.old }
        ensures gathered { (start : List T) → Gathered start self.old → Gathered start self.new }
        ensures named { self.new.slots.ghost_name ≡ self.old.slots.ghost_name }
    {
        let len = self.len;
        let at = self.slot(len);
        self.slots[at] = x;
        self.len = len + 1;
    }

    /// Lets the oldest item go.
    fn skip(&mut self)
        requires { 0 < length (items self.old) }
        ensures items { items self.new ≡ drop 1 (items self.old) }
        ensures room { room self.new ≡ room self.old }
        ensures named { self.new.slots.ghost_name ≡ self.old.slots.ghost_name }
    {
        self.len = self.len() - 1;
        self.head = self.slot(1);
    }
}

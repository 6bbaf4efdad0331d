ghost use Rattle.std.specs.Prelude.{◌≡◌, Some};
ghost use Rattle.std.proofs.Common.{inl};
ghost use Rattle.table_tests.specs.Ways.{Slots, other, in_way, pair_in, overwritten, after_store, shows, stored, cleared, in_slots, empty_slots};
ghost use Rattle.table_tests.specs.Kept.{own_code, other_code, none_left};

use table::{Pair, Table, slot_of};

// A pair and the code that it is of.
#[derive(Clone, Copy)]
struct Entry {
    code: [u64; 5],
    pair: Pair,
}

impl Entry {
    // The pair, if it is of this code.
    fn pair_of(&self, code: &[u64; 5]) -> Option<Pair>
        ensures { result ≡ pair_in (Some self.now) code.now }
    {
        if self.code == *code {
            Some(self.pair)
        } else {
            None
        }
    }
}

// One of the two ways of a slot.
#[derive(Clone, Copy)]
enum Way {
    First,
    Second,
}

impl Way {
    // The other way.
    fn other(self) -> Way
        ensures { result ≡ other self }
    {
        match self {
            Way::First => Way::Second,
            Way::Second => Way::First,
        }
    }
}

// What stands in each way of a slot, and the way that was stored in last.
#[derive(Clone, Copy)]
struct Slot {
    first: Option<Entry>,
    second: Option<Entry>,
    last: Way,
}

impl Slot {
    // What stands in a way.
    fn entry(&self, way: Way) -> Option<Entry>
        ensures { result ≡ in_way self.now way }
    {
        match way {
            Way::First => self.first,
            Way::Second => self.second,
        }
    }

    // The pair that a way has for a code.
    fn pair(&self, way: Way, code: &[u64; 5]) -> Option<Pair>
        ensures { result ≡ pair_in (in_way self.now way) code.now }
    {
        self.entry(way)?.pair_of(code)
    }

    // The way that a store of a code overwrites.
    fn overwritten(&self, code: &[u64; 5]) -> Way
        ensures { result ≡ overwritten self.now code.now }
    {
        if self.pair(self.last, code).is_some() {
            self.last
        } else {
            self.last.other()
        }
    }

    // The slot after a store.
    fn with(self, code: &[u64; 5], pair: Pair) -> Slot
        ensures { result ≡ after_store self code.now pair }
    {
        let entry = Some(Entry { code: *code, pair });
        match self.overwritten(code) {
            Way::First => Slot {
                first: entry,
                last: Way::First,
                ..self
            },
            Way::Second => Slot {
                second: entry,
                last: Way::Second,
                ..self
            },
        }
    }
}

/// 512 slots of two ways each. A store overwrites the way that has its code, and else the way of its slot that was stored in longer ago; a
/// clear empties the ways and keeps their order.
#[derive(Drop)]
pub struct TwoWays {
    slots: [Slot; 512],
}

impl TwoWays {
    /// A table that shows nothing; the first way of each slot counts as the one stored in last.
    pub fn new() -> TwoWays
        ensures { ⟦<TwoWays as Table>⟧.standing result ≡ empty_slots }
    {
        let empty = Slot {
            first: None,
            second: None,
            last: Way::First,
        };
        TwoWays {
            slots: [empty; 512],
        }
    }
}

/// A table that shows nothing.
impl Default for TwoWays {
    ghost is_default = { λ t. ⟦<TwoWays as Table>⟧.standing t ≡ empty_slots };

    fn default() -> TwoWays {
        TwoWays::new()
    }
}

impl Table for TwoWays {
    ghost storing = { record { Standing = Slots; shows = shows; stored = stored; cleared = cleared } };

    ghost standing = { λ t. in_slots t.slots };

    ghost keeping = { record { own = λ s c p. inl (own_code s c p); other = other_code; empties = none_left } };

    fn look_up(&self, code: &[u64; 5]) -> Option<Pair> {
        let slot = &self.slots[slot_of(code)];
        slot.pair(slot.last, code)
            .or(slot.pair(slot.last.other(), code))
    }

    fn store(&mut self, code: &[u64; 5], pair: Pair) {
        let i = slot_of(code);
        self.slots[i] = self.slots[i].with(code, pair);
    }

    fn clear(&mut self) {
        for slot in &mut self.slots {
            slot.first = None;
            slot.second = None;
        }
    }
}

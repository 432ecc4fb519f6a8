// Walks along a thread of entries.
ghost use Rattle.std.specs.Prelude.{◌≡◌, ◌≤◌, ◌-◌, length, MatchOption};
ghost use Rattle.std.specs.Iterator.{at_most};
ghost use Rattle.lookup.specs.Walks.{Rises, Strides};

// A walk along a thread: it stands at an entry, by its number, and `nexts` has the number of the next behind each.
#[derive(Drop)]
pub struct Walk<'a> {
    pub entries: &'a [u16],
    pub nexts: &'a [u16],
    pub at: usize,
}

// The entries of a thread, from the first on: the number and the offset of each.
pub fn thread<'a>(entries: &'a [u16], nexts: &'a [u16], first: usize) -> Walk<'a>
    ensures { (result.entries ≡ entries.entry) × (result.nexts ≡ nexts.entry) × (result.at ≡ first) }
{
    Walk {
        entries,
        nexts,
        at: first,
    }
}

impl<'a> Iterator for Walk<'a> {
    type Item = (usize, usize);

    ghost can_next = { λ w. (length w.entries.now ≤ length w.nexts.now) × Rises w.nexts.now (length w.entries.now) w.at };

    ghost next_gives = { λ w r v. MatchOption r (length w.entries.now ≤ w.at) (λ e. Strides w v e.0 e.1) };

    ghost remaining = { λ w. at_most (length w.entries.now - w.at) };

    fn next(&mut self) -> Option<(usize, usize)> {
        if self.entries.len() <= self.at {
            return None;
        }
        let i = self.at;
        self.at = usize::from(self.nexts[i]);
        Some((i, usize::from(self.entries[i])))
    }
}

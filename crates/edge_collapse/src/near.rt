// Up to 16 neighbours at hand.

ghost use Rattle.std.specs.Prelude.{◌≡◌, ◌≤◌, ◌<◌, ◌++◌, ◌∷◌, [], leb, take};

#[derive(Drop)]
pub(crate) struct Near {
    items: [u32; 16],
    len: usize,
    ghost in_room: { len ≤ 16 },
}

impl Near {
    pub(crate) fn of(x: u32) -> Near
        ensures { take result.len result.items ≡ x ∷ [] }
    {
        Near {
            items: [x; 16],
            len: 1,
        }
    }

    pub(crate) fn is_full(&self) -> bool
        ensures { result ≡ leb 16 self.now.len }
    {
        16 <= self.len
    }

    pub(crate) fn push(&mut self, x: u32)
        requires { self.old.len < 16 }
        ensures { take self.new.len self.new.items ≡ take self.old.len self.old.items ++ (x ∷ []) }
    {
        self.items[self.len] = x;
        self.len += 1;
    }

    pub(crate) fn list(&self) -> &[u32]
        ensures { result.now ≡ take self.now.len self.now.items }
    {
        &self.items[..self.len]
    }
}

ghost use Rattle.std.specs.Prelude.{◌≤◌, length, vec_capacity};

use std::alloc::{AllocError, Global};

/// What is to be sent for one input, in order, and how much of it was given out. All memory is allocated at construction.
#[derive(Drop)]
pub struct Orders<T> {
    list: Vec<T>,
    room: usize,
    given: usize,
    ghost room_fits: { room ≤ vec_capacity list },
    ghost given_fits: { given ≤ length list.items },
}

impl<T: Copy> Orders<T> {
    ghost use Rattle.std.specs.Prelude.{◌≡◌, ◌+◌, ◌<◌, ◌≤◌, ◌++◌, ◌∷◌, [], ◌↔◌, IsTrue, IfOk, length};
    ghost use Rattle.bar_core.specs.Code.Orders.{left_in, GivesFirst};

    /// An empty list with room for this many orders.
    pub fn make(alloc: Global, room: usize) -> Result<Orders<T>, AllocError>
        ensures empty { IfOk result (λ o. o.list.items ≡ []) }
        ensures given { IfOk result (λ o. o.given ≡ 0) }
        ensures room { IfOk result (λ o. o.room ≡ room) }
    {
        let list = Vec::with_capacity(alloc, room)?;
        Ok(Orders {
            list,
            room,
            given: 0,
        })
    }

    /// Whether all orders were given out.
    pub fn is_empty(&self) -> bool
        ensures { IsTrue result ↔ (left_in self.now ≡ []) }
    {
        self.given == self.list.len()
    }

    /// Forgets all orders, given out or not.
    pub fn clear(&mut self)
        ensures { (self.new.list.items ≡ []) × (self.new.given ≡ 0) × (self.new.room ≡ self.old.room) }
    {
        self.list.clear();
        self.given = 0;
    }

    /// Appends an order if there is room.
    pub fn push(&mut self, order: T)
        ensures pushed { length self.old.list.items < self.old.room → self.new.list.items ≡ self.old.list.items ++ order ∷ [] }
        ensures full { self.old.room ≤ length self.old.list.items → self.new.list.items ≡ self.old.list.items }
        ensures length { length self.new.list.items ≤ length self.old.list.items + 1 }
        ensures given { self.new.given ≡ self.old.given }
        ensures room { self.new.room ≡ self.old.room }
    {
        if self.list.len() < self.room {
            let Ok(()) = self.list.push(order) else {
                unreachable!()
            };
        }
    }

    /// Gives out the next order, or `None` if none is left.
    pub fn next(&mut self) -> Option<T>
        ensures first { GivesFirst result (left_in self.old) (left_in self.new) }
        ensures room { self.new.room ≡ self.old.room }
    {
        let order = *self.list.get(self.given)?;
        self.given += 1;
        Some(order)
    }
}

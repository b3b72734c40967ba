// A list that holds up to N items in a fixed place.
ghost use Rattle.std.specs.Prelude.{◌≡◌, ◌≤◌, [], ⊤, length, take};
ghost use Rattle.kinds.specs.Adding.{Adds};

use std::alloc::AllocError;

// The items are those before `count`; what stands behind them means nothing.
pub struct Bounded<T, const N: usize> {
    items: [T; N],
    count: usize,
    ghost whole: { length items ≡ N },
    ghost within: { count ≤ N },
}

// Kept so: the derives were tried, and are refused for a struct with a ghost field and a type parameter.
impl<T: Copy, const N: usize> Clone for Bounded<T, N> {
    ghost is_clone = { λ list copy. copy ≡ list };

    ghost is_infallible = { λ _. ⊤ };

    fn clone(&self) -> Result<Bounded<T, N>, AllocError> {
        Ok(*self)
    }
}

impl<T: Copy, const N: usize> Copy for Bounded<T, N> {}

// An item more than a list holds.
#[derive(Clone, Copy, PartialEq, Eq, Debug)]
pub struct NoRoom;

impl<T: Copy, const N: usize> Bounded<T, N> {
    // A list of no items. Its place holds `blank` throughout.
    pub fn new(blank: T) -> Bounded<T, N>
        ensures { take result.count result.items ≡ [] }
    {
        Bounded {
            items: [blank; N],
            count: 0,
        }
    }

    // Adds an item at the end, if there is room.
    pub fn push(&mut self, item: T) -> Result<(), NoRoom>
        ensures { Adds N (take self.old.count self.old.items) item (take self.new.count self.new.items) result }
    {
        if self.count == N {
            return Err(NoRoom);
        }
        self.items[self.count] = item;
        self.count += 1;
        Ok(())
    }

    pub fn as_slice(&self) -> &[T]
        ensures { result.now ≡ take self.now.count self.now.items }
    {
        let whole = &self.items[..];
        &whole[..self.count]
    }
}

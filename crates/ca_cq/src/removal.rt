ghost use Rattle.std.specs.Prelude.{◌≡◌, ◌++◌, drop, filter, not, take};
ghost use Rattle.circular_buffer.specs.Buffer.{buffer};

use circular_buffer::HeapCircularBuffer;

/// Which things of a ring go.
pub trait Removal<T> {
    ghost use Rattle.std.specs.Prelude.{◌≡◌, Bool};

    // the thing goes
    ghost names: { Self → T → Bool };

    /// Whether the thing goes.
    fn names(&self, thing: &T) -> bool
        ensures { result ≡ names self.now thing.now };
}

/// Removes the things that are named, wherever they stand, and keeps the others in their order. It takes time by how
/// many things there are, and no memory.
pub fn remove<T: Drop, R: Removal<T>>(ring: &mut HeapCircularBuffer<T>, which: &R)
    ensures { ring.new ≡ buffer (filter (λ x. not (R.names which.now x)) ring.old.items) ring.old.capacity }
{
    for _ in 0..ring.len() {
        pass_front(ring, which);
    }
}

/// Moves the thing in front to the back, or drops it where it is named.
fn pass_front<T: Drop, R: Removal<T>>(ring: &mut HeapCircularBuffer<T>, which: &R)
    ensures { ring.new ≡ buffer (drop 1 ring.old.items
        ++ filter (λ x. not (R.names which.now x)) (take 1 ring.old.items)) ring.old.capacity }
{
    if ring.len() == 0 {
        return;
    }
    if let Some(front) = ring.pop_front() {
        if !which.names(&front) {
            ring.push_back(front);
        }
    }
}

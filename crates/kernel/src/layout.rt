// What is set up before a kernel opens: pools of frames, the lengths of the objects' queues, and who hears which
// signal. A refused call leaves everything as it was.
ghost use Rattle.std.specs.Prelude.{◌≡◌, ◌≤◌, min, IsTrue};
ghost use Rattle.terms.specs.Calls.{Follows};
ghost use Rattle.terms.specs.Entries.{entries};
ghost use Rattle.kernel.specs.Pools.{total, largest, some_holds, next_pool, Small, Small-prop};

use crate::fault::SetupFault;
use terms::object_set::ObjectSet;
use terms::range::between;
use terms::slots::Slots;
use terms::table::Table;

// Frames of one size, counted in words.
#[derive(Clone, Copy, Debug, PartialEq, Eq)]
pub struct Pool {
    pub size: u8,
    pub count: u8,
}

// How many frames wait at an object at most, and how many it defers.
#[derive(Clone, Copy, Debug, PartialEq, Eq)]
pub struct Lengths {
    pub queue: u8,
    pub deferral: u8,
}

// At most eight objects; no pool's frames hold more than eight words, and there are at most 64 frames.
#[derive(Clone, Copy)]
pub struct Layout {
    objects: u8,
    pools: Table<Pool, 3>,
    lengths: Slots<Lengths, 8>,
    subscribers: Slots<ObjectSet, 64>,
    ghost counted: { objects ≤ 8 },
    ghost small: { Small (entries pools) } by { Small-prop (entries pools) },
    ghost few: { total (entries pools) ≤ 64 },
}

impl Layout {
    ghost use Rattle.kernel.specs.Plan.{plan, blank, object_of, add_pool, set_lengths, subscribed};

    // No pool and no subscription yet; each queue has four places and no deferral. At most eight objects count.
    pub fn new(objects: u8) -> Layout
        ensures { plan result ≡ blank (min objects 8) }
    {
        let start = Lengths {
            queue: 4,
            deferral: 0,
        };
        Layout {
            objects: objects.min(8),
            pools: Table::new(Pool { size: 0, count: 0 }),
            lengths: Slots::new(start),
            subscribers: Slots::new(ObjectSet::EMPTY),
        }
    }

    // A pool more, larger than those before it.
    pub fn add_pool(&mut self, size: u16, count: u16) -> Result<(), SetupFault>
        ensures { Follows (add_pool (plan self.old) size count) result (plan self.old) (plan self.new) }
    {
        let pool = self.next_pool(size, count).ok_or(SetupFault::Pool)?;
        self.pools.push(pool).map_err(|_| SetupFault::Pool)
    }

    // How many places an object's queue and its deferral queue have.
    pub fn set_lengths(&mut self, object: u16, queue: u16, deferral: u16) -> Result<(), SetupFault>
        ensures { Follows (set_lengths (plan self.old) object queue deferral) result (plan self.old) (plan self.new) }
    {
        let object = self.object(object).ok_or(SetupFault::Object)?;
        let lengths = Lengths {
            queue: between(1, queue, 16).ok_or(SetupFault::Length)?,
            deferral: between(0, deferral, 8).ok_or(SetupFault::Length)?,
        };
        self.lengths.set(usize::from(object), lengths);
        Ok(())
    }

    // Subscribes an object to a signal; once more says nothing new.
    pub fn subscribe(&mut self, object: u16, signal: u16) -> Result<(), SetupFault>
        ensures { Follows (subscribed (plan self.old) object signal) result (plan self.old) (plan self.new) }
    {
        let object = self.object(object).ok_or(SetupFault::Object)?;
        let signal = usize::from(signal);
        let heard = self.subscribers.get(signal).ok_or(SetupFault::Signal)?;
        self.subscribers.set(signal, heard.with(object));
        Ok(())
    }

    // An event with so many words has a pool that holds it.
    pub fn holds(&self, words: usize) -> bool
        ensures some { result ≡ some_holds (plan self.now).pools words }
        ensures most { IsTrue result → words ≤ 8 }
    {
        self.pools()
            .iter()
            .any(|pool| words <= usize::from(pool.size))
    }

    // The object of that number, if the cell has it.
    pub fn object(&self, number: u16) -> Option<u8>
        ensures { result ≡ object_of (plan self.now) number }
    {
        between(1, number, self.objects)
    }

    // How many objects the cell has.
    pub fn objects(&self) -> u8
        ensures { result ≡ (plan self.now).objects }
    {
        self.objects
    }

    pub fn pools(&self) -> &[Pool]
        ensures { result.now ≡ (plan self.now).pools }
    {
        self.pools.as_slice()
    }

    // A pool that may follow those before it: larger, and with frames that there is still room for.
    #[tactic(auto, unfolding(crate::specs::Pools::next_pool))]
    fn next_pool(&self, size: u16, count: u16) -> Option<Pool>
        ensures { result ≡ next_pool (entries self.now.pools) size count }
    {
        if size <= self.largest()
            || size > 8
            || count == 0
            || self.frames() + u32::from(count) > 64
        {
            return None;
        }
        Some(Pool {
            size: size as u8,
            count: count as u8,
        })
    }

    // The size of the largest pool; with none 0, which is less than every size.
    fn largest(&self) -> u16
        ensures { result ≡ largest (entries self.now.pools) }
    {
        self.pools().last().map_or(0, |pool| u16::from(pool.size))
    }

    // The frames of all pools.
    fn frames(&self) -> u32
        ensures { result ≡ total (entries self.now.pools) }
    {
        self.pools().iter().map(|pool| u32::from(pool.count)).sum()
    }
}

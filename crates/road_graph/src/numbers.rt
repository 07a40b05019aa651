// Lists of numbers, of one owner and of several.

ghost use Rattle.std.specs.Prelude.{◌≡◌, IfOk};

use names::NoMemory;
use std::alloc::{AllocError, Global};
use std::marker::Model;
use std::sync::Arc;

/// A list of numbers, as the segments of a route or the nodes that were reached.
#[derive(Debug, Drop)]
pub struct Numbers {
    list: Vec<u32>,
}

impl Model for Numbers {
    ghost use Rattle.std.specs.Prelude.{List, ℕ};

    ghost Value = { List ℕ };

    ghost view = { λ n. n.list.items };
}

/// A list in the same allocator, for types that derive `Clone`.
impl Clone for Numbers {
    ghost is_clone = { λ numbers copy. copy ≡ numbers };

    fn clone(&self) -> Result<Numbers, AllocError> {
        let list = self.list.clone()?;
        Ok(Numbers { list })
    }
}

impl Numbers {
    /// These numbers. Takes no memory.
    pub fn of(list: Vec<u32>) -> Numbers
        ensures { result ≡ list.items }
    {
        Numbers { list }
    }

    /// The numbers. Takes no memory.
    pub fn as_slice(&self) -> &[u32]
        ensures { result.now ≡ self.now }
    {
        self.list.as_slice()
    }

    /// The same numbers once more.
    pub fn try_clone(&self, alloc: Global) -> Result<Numbers, NoMemory>
        ensures { IfOk result (λ copy. copy ≡ self.now) }
    {
        let mut list = Vec::new(alloc);
        match list.extend_from_slice(self.list.as_slice()) {
            Ok(()) => Ok(Numbers { list }),
            Err(_) => Err(NoMemory),
        }
    }

    /// The numbers in the vector that holds them. Takes no memory.
    pub fn into_vec(self) -> Vec<u32>
        ensures { result.items ≡ self }
    {
        self.list
    }
}

/// A list of numbers that its owners have in common.
///
/// Where many trips lead to a goal that is shut, the same nodes are reached from each of their starts. The findings of these
/// trips hold one list together, which never changes, and a further owner copies nothing.
///
/// Contracts see the list.
#[derive(Debug, Drop)]
pub struct SharedNumbers {
    numbers: Arc<Numbers, Global>,
}

impl Model for SharedNumbers {
    ghost use Rattle.std.specs.Prelude.{List, ℕ};
    ghost use Rattle.std.specs.Arc.{arc_value};

    ghost Value = { List ℕ };

    ghost view = { λ shared. arc_value shared.numbers };
}

/// One more owner of the same list. Copies nothing, and is refused only where no further owner can be had.
impl Clone for SharedNumbers {
    ghost is_clone = { λ shared owner. owner ≡ shared };

    fn clone(&self) -> Result<SharedNumbers, AllocError> {
        let numbers = Arc::try_clone(&self.numbers)?;
        Ok(SharedNumbers { numbers })
    }
}

impl SharedNumbers {
    /// These numbers, with one owner.
    pub fn of(alloc: Global, numbers: Numbers) -> Result<SharedNumbers, AllocError>
        ensures { IfOk result (λ shared. shared ≡ numbers) }
    {
        let numbers = Arc::new(alloc, numbers)?;
        Ok(SharedNumbers { numbers })
    }

    /// The numbers. Takes no memory.
    pub fn as_slice(&self) -> &[u32]
        ensures { result.now ≡ self.now }
    {
        self.numbers.as_slice()
    }
}

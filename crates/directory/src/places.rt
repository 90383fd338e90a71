//! One access, at a place of a broker.

ghost use Rattle.std.specs.Prelude.{◌≡◌, ◌≤◌, length};
ghost use Rattle.arena.specs.Broker.{broker_size, broker_word, IsBrokerPlace};
ghost use Rattle.persist.specs.Memory.{Load, Store, Flush, Fence, Word};
ghost use Rattle.directory.specs.Step.{after_one, change_by, lent_after_one, value_found};

use arena::{BrokerLayout, BrokerPlace};
use persist::{Change, WordMemory};

/// Loads the word of a place.
pub(crate) fn load_at<M: WordMemory>(
    layout: &BrokerLayout,
    memory: &mut M,
    place: BrokerPlace,
) -> u64
    requires place { IsBrokerPlace layout.now place }
    requires room { broker_size layout.now ≤ length (M.words memory.old).cached }
    ensures value { result ≡ value_found layout.now (Load place) (M.words memory.old) }
    ensures one_access { M.words memory.new ≡ after_one layout.now (Load place) (M.words memory.old) }
    ensures lent { M.lent memory.new ≡ M.lent memory.old }
{
    memory.load(layout.word(place)).unwrap()
}

/// Stores a value in the word of a place.
pub(crate) fn store_at<M: WordMemory>(
    layout: &BrokerLayout,
    memory: &mut M,
    place: BrokerPlace,
    value: u64,
)
    requires place { IsBrokerPlace layout.now place }
    requires room { broker_size layout.now ≤ length (M.words memory.old).cached }
    ensures one_access { M.words memory.new ≡ after_one layout.now (Store place value) (M.words memory.old) }
    ensures lent { M.lent memory.new ≡ M.lent memory.old }
{
    memory.store(layout.word(place), value).unwrap()
}

/// Asks that a place's word be kept.
pub(crate) fn flush_at<M: WordMemory>(layout: &BrokerLayout, memory: &mut M, place: BrokerPlace)
    requires place { IsBrokerPlace layout.now place }
    requires room { broker_size layout.now ≤ length (M.words memory.old).cached }
    ensures one_access { M.words memory.new ≡ after_one layout.now (Flush place) (M.words memory.old) }
    ensures lent { M.lent memory.new ≡ lent_after_one layout.now (Flush place) (M.lent memory.old) }
{
    memory.flush(layout.word(place)).unwrap()
}

/// Keeps the cached value of a place's word, which was asked for. It answers the change, where the kept value changed.
pub(crate) fn fence_at<M: WordMemory>(
    layout: &BrokerLayout,
    memory: &mut M,
    place: BrokerPlace,
) -> Option<Change>
    requires asked { (M.lent memory.old).request ≡ Word (broker_word layout.now place) }
    ensures one_access { M.words memory.new ≡ after_one layout.now (Fence place) (M.words memory.old) }
    ensures lent { M.lent memory.new ≡ lent_after_one layout.now (Fence place) (M.lent memory.old) }
    ensures change { result ≡ change_by layout.now (Fence place) (M.words memory.old) }
{
    memory.fence().unwrap()
}

//! Two cores whose caches look for each other.
ghost use Rattle.std.specs.Prelude.{◌≡◌, false, IfOk};
ghost use Rattle.dc_shard.specs.Bays.{states_of, outs_of, AreFree, MayStepEach};
ghost use Rattle.dc_shard.specs.Rounds.{AreBlank};
ghost use Rattle.dc_shard.specs.Taped.{blank};
ghost use Rattle.dc_core.specs.Running.{core_machine};

use dc_core::Core;
use dc_draws::Draws;
use dc_event::{BatchWorld, Inbox};
use dc_rules::Config;
use dc_shard::{Bay, ShardServed, Shards, Tape, serve_shards};
use dc_store::{Hit, PlainStore, Store};
use std::alloc::{AllocError, Global};
use std::sync::atomic::{AtomicU64, Ordering};
use std::thread::Threads;

/// How often a cache looks for the other one.
const LOOKS: u32 = 50_000_000;

/// What two caches tell each other: how often each was asked, and how many saw that the other was.
#[derive(Drop)]
pub struct Meeting {
    first: AtomicU64,
    second: AtomicU64,
    met: AtomicU64,
}

impl Meeting {
    /// Nothing was asked.
    pub fn new() -> Meeting {
        Meeting {
            first: AtomicU64::new(0),
            second: AtomicU64::new(0),
            met: AtomicU64::new(0),
        }
    }

    /// How many saw the other.
    pub fn met(&self) -> u64 {
        self.met.load(Ordering::SeqCst)
    }
}

/// A cache that at its first look-up waits a while until the other one is at its own.
#[derive(Drop)]
struct MeetingStore<'a> {
    store: PlainStore,
    own: &'a AtomicU64,
    other: &'a AtomicU64,
    met: &'a AtomicU64,
}

impl<'a> MeetingStore<'a> {
    /// Looks for the other.
    fn meet(&self) {
        for _ in 0..LOOKS {
            if self.other.load(Ordering::SeqCst) > 0 {
                self.met.fetch_add(1, Ordering::SeqCst);
                return;
            }
        }
    }
}

impl<'a> Store for MeetingStore<'a> {
    ghost cache = { λ s. s.store };

    fn get(&self, key: &[u8], now: u64) -> Option<Hit<'_>> {
        if self.own.fetch_add(1, Ordering::SeqCst) == 0 {
            self.meet();
        }
        self.store.get(key, now)
    }

    fn put(&mut self, key: &[u8], body: &[u8], ttl: u32, now: u64) {
        self.store.put(key, body, ttl, now);
    }

    fn motion(&self) -> u64 {
        self.store.motion()
    }
}

/// A core over such a cache, which has handled nothing.
fn bay<'a>(
    alloc: Global,
    config: &Config,
    own: &'a AtomicU64,
    other: &'a AtomicU64,
    met: &'a AtomicU64,
) -> Result<Bay<Core<MeetingStore<'a>>, Tape>, AllocError>
    ensures handled { IfOk result (λ b. b.core.handled ≡ 0) }
    ensures free { IfOk result (λ b. b.given ≡ false) }
    ensures blank { IfOk result (λ b. b.out ≡ blank) }
{
    let store = MeetingStore {
        store: PlainStore::new(alloc, config.size)?,
        own,
        other,
        met,
    };
    Ok(Bay {
        core: Core::new(alloc, config.copy(alloc)?, store)?,
        inbox: Inbox::new(alloc)?,
        draws: [0; 17],
        given: false,
        out: Tape::new(alloc)?,
    })
}

/// Serves a world over two such cores, nine events at most.
pub fn serve_meeting<W: BatchWorld>(
    threads: &(impl Threads + Sync),
    alloc: Global,
    config: &Config,
    seed: [u8; 32],
    meeting: &Meeting,
    world: &mut W,
) -> Result<ShardServed, AllocError> {
    let first = bay(alloc, config, &meeting.first, &meeting.second, &meeting.met)?;
    let second = bay(alloc, config, &meeting.second, &meeting.first, &meeting.met)?;
    let mut bays = Vec::new(alloc);
    bays.push(first)?;
    bays.push(second)?;
    let mut shards = Shards::new(bays);
    let mut inbox = Inbox::new(alloc)?;
    let mut draws = Draws::from_seed(seed);
    Ok(serve_shards(threads, world, &mut shards, &mut inbox, &mut draws, 9))
}

// Two workers on a core over one source.
ghost use Rattle.std.specs.Prelude.{◌≡◌, ◌∷◌, ℕ, List, [], None, Some, true, IfOk};
ghost use Rattle.clip_term.specs.Terms.{source};
ghost use Rattle.inst_table.specs.declared.place.Slot.TheVariants.{Free};
ghost use Rattle.inst_table.specs.Places.{place_at};
ghost use Rattle.serve_core.specs.Calls.{made};

use crate::clips::over_a_source;
use frame_cache::FrameCache;
use fv_plane::{Field, Info, Key, Par, PixelType, Shape, Tag};
use inst_table::{Held, InstTable};
use serve_core::{Admitted, Ask, Core, Event};
use std::alloc::Global;
use std::sync::Arc;
use std::test::Fail;

// A clip of four frames of one sample.
const DOTS: Info = Info {
    shape: Shape {
        kind: PixelType::Y8,
        bits: 8,
        width: 1,
        height: 1,
    },
    frames: 4,
    num: 25,
    den: 1,
    field: Field::Progressive,
    par: Par { num: 1, den: 1 },
    tag: Tag::Jpeg,
};

// An instance that keeps a source of this info, whose frames aren't told.
#[derive(Drop)]
struct Untold(Info);

impl Held for Untold {
    ghost feed = { λ it. None };

    ghost faults = { λ it. 0 };

    ghost holds = { λ it. Some it.0 };

    ghost ends = { λ it frame want got. ⊥ };
}

// The instance of a source.
fn table_of(alloc: Global, instance: Untold) -> Result<InstTable<Untold>, Fail>
    ensures { IfOk result (λ table. table ≡ (place_at 0 0 true, Free instance) ∷ []) }
{
    let mut table = InstTable::new(alloc);
    match table.add(0, 0, true, instance) {
        Ok(()) => Ok(table),
        Err(_) => Err(Fail::from("no memory")),
    }
}

// A core with two workers over a source, with room for four frames.
fn with_two_workers(alloc: Global) -> Result<Core<Untold>, Fail>
    ensures { IfOk result (λ core. (name : List ℕ) × (core ≡ made (record {
      act = source name 0 DOTS;
      inputs = [];
      info = DOTS;
      mode = 3;
      depth = 1;
    } ∷ []) 0 (record { pairs = []; capacity = 4 }) 2 ((place_at 0 0 true, Free (record { 0 = DOTS })) ∷ []))) }
{
    let graph = Arc::new(alloc, over_a_source(alloc, DOTS)?)?;
    let table = table_of(alloc, Untold(DOTS))?;
    let cache = FrameCache::new(alloc, 4)?;
    Ok(Core::new(alloc, graph, 0, cache, 2, table))
}

const FIRST: Key = Key { node: 0, n: 0 };

const SECOND: Key = Key { node: 0, n: 1 };

#[test]
fn a_claim_and_a_lease_have_one_holder(rt: HostRuntime) -> Result<(), Fail> {
    let mut core = with_two_workers(rt.alloc())?;
    core.begin_window(0, 2)?;
    let asked = core.ask(0, FIRST)?;
    let Ask::Claimed = asked else { unreachable!() };
    let asked = core.ask(1, FIRST)?;
    let Ask::Taken { by } = asked else {
        unreachable!()
    };
    assert_eq!(rt; by, 0);
    let asked = core.ask(1, SECOND)?;
    let Ask::Claimed = asked else { unreachable!() };
    let entered = core.enter(0, 0)?;
    let Admitted::Leased(lease) = entered else {
        unreachable!()
    };
    let holder = match core.enter(1, 0) {
        Ok(Admitted::Busy { holder }) => Some(holder),
        Ok(Admitted::Leased(_other)) => unreachable!(),
        Ok(Admitted::Stopped(_)) => unreachable!(),
        Err(_) => None,
    };
    core.leave(0, lease);
    assert_eq!(rt; holder, Some(0));
    Ok(())
}

// A journal holds millions of events.
#[test]
fn an_event_is_small(rt: HostRuntime) {
    assert!(rt; size_of::<Event>() <= 48);
}

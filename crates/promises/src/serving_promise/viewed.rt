use crate::serving_promise::marks::Mark;
use block_cache::BlockCache;
use cartridge_meaning::Mounted;
use plain_tree::Placed;
use session_script::{Ack, Event, ScriptLine};
use std::marker::Model;
use std::snapshot::Snapshot;
use tape_types::List;

/// What a volume keeps of what contracts see of it. It shows that this is a value that a type can have as its meaning.
pub struct Viewed<D> {
    drive: D,
    first: Snapshot<D>,
    since: Snapshot<u64>,
    script: List<ScriptLine>,
    mounted: Mounted,
    history: List<Placed>,
    acks: List<Ack>,
    events: List<Event>,
    marks: List<Mark>,
    cached: BlockCache,
}

impl<D> Model for Viewed<D> {
    ghost use Rattle.std.specs.Prelude.{[], None};
    ghost use Rattle.std.specs.FinMap as fin;
    ghost use Rattle.promises.specs.ServingPromise.Served.{View};
    ghost use Rattle.std.specs.Coded.{codes, coded_list, coded_ℕ};
    ghost use Rattle.plain_tree.specs.Paths.{path_cmp};
    ghost use Rattle.plain_tree.specs.contracts.nodes.Node as node;
    ghost use Rattle.plain_tree.specs.contracts.calls.LockState as state;
    ghost use Rattle.plain_tree.specs.declared.calls.LockState.TheVariants as locks;

    ghost Value = { View D };

    ghost coded = { Prim.hlevel (
      codes,
      state.the_row.coded,
      fin.code {R = path_cmp} (coded_list (coded_list coded_ℕ)) node.the_row.coded,
    ) };

    ghost view = { λ a. record {
      fixed = record {
        script = a.script;
        tree = record { highest = 0; lock = locks.Absent; nodes = fin.empty };
        mounted = a.mounted;
        first = a.first.value;
        moment = None;
        since = a.since.value;
      };
      drive = a.drive;
      next = None;
      history = a.history;
      replies = [];
      acks = a.acks;
      events = a.events;
      marks = a.marks;
      kept = [];
      on = None;
      ops = [];
      cached = a.cached;
    } };
}

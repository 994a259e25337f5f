// Nodes opened and closed.
ghost use Rattle.std.specs.Prelude.{◌≤◌};
ghost use Rattle.tokens.specs.Family.{new_device, finish_device};
ghost use Rattle.state.specs.Joints.Apart.{on_nodes, Moves, Looks};
ghost use Rattle.acts.specs.Joints.Acts.{Quiet};
ghost use Rattle.rom.specs.Sizes.{data_most};

use rom::sizes::NODES_MOST;
use state::{Core, Handed, go, stop};
use tree::{close_child, open_child};

// new-device
pub fn open_node(parents: &mut [u32; NODES_MOST], core: Core, next: u32) -> Handed
    requires { core.height ≤ data_most }
    ensures { Moves (on_nodes parents.old) core result (on_nodes parents.new) (λ s t. Quiet new_device s next t) }
{
    let opened = open_child(parents, core.nodes, core.active);
    // a copy that is written: by `..core` in the tokens' functions a loop of calls took 2.2 times the instructions
    let mut k = core;
    k.nodes = opened.nodes;
    k.active = opened.active;
    match opened.outcome {
        Ok(()) => {
            k.place = next;
            go(k)
        }
        Err(why) => stop(k, why),
    }
}

// finish-device
pub fn close_node(parents: &[u32; NODES_MOST], core: Core, next: u32) -> Handed
    requires { core.height ≤ data_most }
    ensures { Looks (on_nodes parents.now) core result (λ s t. Quiet finish_device s next t) }
{
    let closed = close_child(parents, core.first, core.active);
    let mut k = core;
    k.active = closed.active;
    match closed.outcome {
        Ok(()) => {
            k.place = next;
            go(k)
        }
        Err(why) => stop(k, why),
    }
}

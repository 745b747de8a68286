// The instances that the nodes of a graph need.
ghost use Rattle.std.specs.Prelude.{◌≡◌, ◌∷◌, ◌++◌, ◌<◌, [], length, OnOk, OnErr, IsTrue};
ghost use Rattle.clip_term.specs.Terms.{act_of};
ghost use Rattle.clip_graph.specs.Plan.{application_at};
ghost use Rattle.serve_worker.specs.Sources.{AreSources};
ghost use Rattle.inst_table.specs.declared.place.Slot.TheVariants.{Free};
ghost use Rattle.inst_table.specs.Places.{IsNewPair, place_at, shared_place};
ghost use Rattle.serve_core.specs.Kept.{leases_out};
ghost use Rattle.serve_worker.specs.Furnishing.{Furnishes, IsNewNode, IsNext, Moves, Adds};
ghost use Rattle.serve_worker.specs.Furnishing.{sources_in, source_of, filter_instance, own_entries, node_entries};

use crate::instance::Instance;
use clip_graph::Graph;
use clip_term::Op;
use flt_soft::Scratch;
use fv_io::Source;
use inst_table::InstTable;
use seq_source::SeqSource;
use std::alloc::{AllocError, Global};

// What a node of this op keeps, if it is no source.
fn instance_for<S: Source>(alloc: Global, op: &Op) -> Instance<S>
    ensures { result ≡ filter_instance (act_of op.now) }
{
    match op {
        Op::Soft(_) => Instance::Scratch(Scratch::new(alloc)),
        _ => Instance::Plain,
    }
}

// Drops an instance that keeps no source.
fn drop_filter<S: Source>(value: Instance<S>)
    requires { source_of value ≡ [] }
{
    match value {
        Instance::Plain => {}
        Instance::Scratch(_rows) => {}
        Instance::Source(_source) => unreachable!(),
    }
}

// Adds an instance of a node that is no source.
fn add_filter<S: Source>(
    alloc: Global,
    table: &mut InstTable<Instance<S>>,
    op: &Op,
    node: u32,
    instance: u32,
    shared: bool,
) -> Result<(), AllocError>
    requires new { IsNewPair node instance table.old }
    requires one_shared { IsTrue shared → instance ≡ 0 }
    ensures ok { OnOk result (table.new ≡
        table.old ++ (place_at node instance shared, Free (filter_instance (act_of op.now))) ∷ []) }
    ensures err { OnErr result (table.new ≡ table.old) }
{
    match table.add(node, instance, shared, instance_for(alloc, op)) {
        Ok(()) => Ok(()),
        Err((value, refused)) => {
            drop_filter(value);
            Err(refused)
        }
    }
}

// Moves the last source to its node.
fn move_last<S: Source>(
    table: &mut InstTable<Instance<S>>,
    node: u32,
    sources: &mut Vec<SeqSource<S>>,
) -> Result<(), AllocError>
    requires new { IsNewPair node 0 table.old }
    requires some { 0 < length sources.old.items }
    ensures ok { OnOk result (Moves sources.old.items sources.new.items table.old table.new node) }
    ensures err { OnErr result (sources.new.items ≡ sources.old.items) }
    ensures table { OnErr result (table.new ≡ table.old) }
{
    let last = sources.pop();
    let Some(source) = last else { unreachable!() };
    match table.add(node, 0, true, Instance::Source(source)) {
        Ok(()) => Ok(()),
        Err((value, refused)) => {
            let Instance::Source(source) = value else {
                unreachable!()
            };
            sources.push_reserved(source);
            Err(refused)
        }
    }
}

// The instance of a node of mode 3.
fn share<S: Source>(
    alloc: Global,
    table: &mut InstTable<Instance<S>>,
    op: &Op,
    node: u32,
    sources: &mut Vec<SeqSource<S>>,
) -> Result<(), AllocError>
    requires new { IsNewPair node 0 table.old }
    requires next { IsNext (act_of op.now) sources.old.items }
    ensures ok { OnOk result (Adds sources.old.items sources.new.items table.old table.new (act_of op.now)
        (λ x. (shared_place node, Free x) ∷ [])) }
    ensures kept { sources.old.items ++ sources_in table.old ≡ sources.new.items ++ sources_in table.new }
    ensures leases { leases_out table.new ≡ leases_out table.old }
{
    match op.source_part() {
        Some(_) => move_last(table, node, sources),
        None => add_filter(alloc, table, op, node, 0, true),
    }
}

// The instances of a node of mode 2, one for each worker.
fn give_each<S: Source>(
    alloc: Global,
    table: &mut InstTable<Instance<S>>,
    op: &Op,
    node: u32,
    workers: u32,
) -> Result<(), AllocError>
    requires { IsNewNode node table.old }
    ensures ok { OnOk result (table.new ≡ table.old ++ own_entries node (filter_instance (act_of op.now)) workers) }
    ensures sources { sources_in table.new ≡ sources_in table.old }
    ensures leases { leases_out table.new ≡ leases_out table.old }
{
    for worker in 0..workers {
        add_filter(alloc, table, op, node, worker, false)?;
    }
    Ok(())
}

// The instances of one node.
fn furnish_node<S: Source>(
    alloc: Global,
    table: &mut InstTable<Instance<S>>,
    graph: &Graph,
    i: u32,
    sources: &mut Vec<SeqSource<S>>,
    workers: u32,
) -> Result<(), AllocError>
    requires node { i < length graph.now }
    requires new { IsNewNode i table.old }
    requires next { IsNext (application_at graph.now i).act sources.old.items }
    ensures ok { OnOk result (Adds sources.old.items sources.new.items table.old table.new
        (application_at graph.now i).act (node_entries (application_at graph.now i).mode i workers)) }
    ensures kept { sources.old.items ++ sources_in table.old ≡ sources.new.items ++ sources_in table.new }
    ensures leases { leases_out table.new ≡ leases_out table.old }
{
    prove!(i < graph.len());
    let node = graph.node(i);
    if node.mode == 3 {
        return share(alloc, table, &node.op, i, sources);
    }
    if node.mode == 2 {
        return give_each(alloc, table, &node.op, i, workers);
    }
    Ok(())
}

/// Makes the instances that the nodes of a graph need: one that all workers share at a node of mode 3, one for each
/// worker at a node of mode 2, none at one of mode 1. A source stands at its node. An instance of a filter of the group
/// Soft is a scratch with no row, and one of any other filter keeps nothing. `sources` are those of the graph, in the
/// order of their numbers.
///
/// Each source is afterwards in the table or still in the list. An `Err` is out of memory.
pub fn furnish<S: Source>(
    alloc: Global,
    table: &mut InstTable<Instance<S>>,
    graph: &Graph,
    sources: &mut Vec<SeqSource<S>>,
    workers: u32,
) -> Result<(), AllocError>
    requires empty { table.old ≡ [] }
    requires sources { AreSources graph.now sources.old.items }
    ensures ok { OnOk result (Furnishes graph.now workers sources.old.items table.new) }
    ensures empty { OnOk result (sources.new.items ≡ []) }
    ensures kept { sources.old.items ≡ sources.new.items ++ sources_in table.new }
    ensures leases { leases_out table.new ≡ 0 }
{
    let mut i = graph.len();
    'nodes: while i > 0 {
        i -= 1;
        furnish_node(alloc, table, graph, i, sources, workers)?;
    }
    Ok(())
}

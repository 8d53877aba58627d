// How long marking takes: a chain of numbers, each of which follows from the one before, in both stores and in two lengths.
//
// The counts go to standard output and are compared; the times go to standard error. Twice the length should take about twice the time.
#![tactic(auto)]

use edges::{Edge, Graph};
use marks::mark::{LimitTooLow, Marked, mark};
use marks::store::MarkStore;
use slottable::SlotTable;
use std::alloc::{AllocError, Global};
use std::time::Instant;
use wordtable::WordTable;

// One more than the longest chain's last number: the bound of the edges, and the limit of both tables.
const BOUND: u64 = 200001;

fn chain(heap: Global, n: u64) -> Result<Vec<Edge>, AllocError> {
    (0..n)
        .map(|from| Edge {
            from,
            to: from.wrapping_add(1),
        })
        .collect(heap)
}

// Marks the whole chain in a store, and shows how many numbers it has and how long it took.
fn timed<S: MarkStore>(
    rt: &HostRuntime,
    title: &str,
    graph: &Graph,
    store: &mut S,
) -> anyhow::Result<()> {
    let start = Instant::now(rt)?;
    let outcome = mark(graph, store, u64::MAX);
    let micros = start.elapsed(rt)?.as_micros();
    match outcome {
        Ok(Marked { added, .. }) => {
            println!(rt; "{title}: {added} numbers")?;
            eprintln!(rt; "{title}: {added} numbers in {micros} us")?;
        }
        Err(LimitTooLow) => println!(rt; "{title}: limit too low")?,
    }
    Ok(())
}

fn trial(
    rt: &HostRuntime,
    length: u64,
    words: &mut [u64],
    slots: &mut [Option<u64>],
) -> anyhow::Result<()> {
    let edges = chain(rt.alloc(), length)?;
    let graph = Graph {
        edges: &edges,
        start: 0,
        bound: BOUND,
    };
    let mut table = WordTable::over(words);
    match table.set_up(BOUND) {
        Ok(()) => timed(rt, "words", &graph, &mut table)?,
        Err(_) => println!(rt; "words: too few")?,
    }
    let mut table = SlotTable::over(slots);
    table.set_up(BOUND);
    timed(rt, "slots", &graph, &mut table)
}

fn main(rt: HostRuntime) -> anyhow::Result<()> {
    let mut words = [0u64; 3126];
    let mut slots = [None::<u64>; 262144];
    trial(&rt, 100000, &mut words, &mut slots)?;
    trial(&rt, 200000, &mut words, &mut slots)
}

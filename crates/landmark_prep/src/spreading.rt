//! The labels of landmarks, spread on threads.
ghost use Rattle.std.specs.Prelude.{◌≡◌, ℕ, ◌%◌, ◌^◌, ◌<◌, ◌≤◌, All, length, map, vec_len, slice_index_or, IfOk};
ghost use Rattle.std.specs.List.{AllZip};
ghost use Rattle.walk_rules.specs.Walks.{AreTurned};
ghost use Rattle.landmark_prep.specs.Packing.{packed};
ghost use Rattle.landmark_prep.specs.Jobs.{jobs_for, rows_of, IsRow, Gives, AreRowsOf};

use crate::labels::{LabelTable, PackedLabels, pack};
use gh_base::{FreshView, LabelList, NoMemory, NodeId, RoadView, Sequence};
use label_spread::{GrainView, labels_from, labels_to};
use std::alloc::{AllocError, Global};
use std::thread;
use std::thread::Threads;

/// Whether labels go from a landmark to each node, or from each node to it.
#[derive(Clone, Copy, Debug, Drop)]
pub enum Way {
    From,
    To,
}

/// The labels of a landmark, one way.
#[derive(Clone, Copy, Debug, Drop)]
pub struct Job {
    pub landmark: NodeId,
    pub way: Way,
}

/// The labels of each landmark in whole grains, each way of each in a thread of its own, at most as many
/// threads at a time as there are processors.
pub fn spread_all<R: Threads + Sync, V: FreshView + Sync + Drop, W: FreshView + Sync + Drop>(
    rt: &R,
    alloc: Global,
    out: &V,
    back: &W,
    grain: u64,
    landmarks: &[NodeId],
) -> Result<LabelTable, NoMemory>
    requires nodes { All (λ landmark. landmark.0 < (V.network out.now).nodes) landmarks.now }
    requires turned { AreTurned (V.network out.now) (W.network back.now) }
    requires fine { 1 ≤ grain }
    requires coarse { grain ≤ 2 ^ 46 }
    ensures { IfOk result (λ table. AllZip (AreRowsOf (V.network out.now) grain) landmarks.now table) }
{
    let jobs = list_jobs(alloc, landmarks)?;
    let rows = run_jobs(rt, alloc, out, back, grain, jobs)?;
    pair_up(alloc, rows)
}

/// What each job gives, in their order. A thread takes the room of a search, so no more are started than
/// run at once.
fn run_jobs<R: Threads + Sync, V: FreshView + Sync + Drop, W: FreshView + Sync + Drop>(
    rt: &R,
    alloc: Global,
    out: &V,
    back: &W,
    grain: u64,
    jobs: Vec<Job>,
) -> Result<Vec<Result<Sequence<u16>, NoMemory>>, NoMemory>
    requires nodes { All (λ job. job.landmark.0 < (V.network out.now).nodes) jobs.items }
    requires turned { AreTurned (V.network out.now) (W.network back.now) }
    requires fine { 1 ≤ grain }
    requires coarse { grain ≤ 2 ^ 46 }
    ensures { IfOk result (λ rows. AllZip (Gives (V.network out.now) grain) jobs.items rows.items) }
{
    let most = processors(rt);
    let mut rows = Vec::new(alloc);
    let mut left = jobs;
    'batches: while !left.is_empty() {
        let later = left.split_off(most.min(left.len()))?;
        let mut more = run_batch(rt, alloc, out, back, grain, left)?;
        rows.append(&mut more)?;
        left = later;
    }
    Ok(rows)
}

/// How many threads run at once: one where that can't be told.
fn processors(rt: &impl Threads) -> usize
    ensures { 1 ≤ result }
{
    match thread::available_parallelism(rt) {
        Ok(count) => count.get(),
        Err(_) => 1,
    }
}

/// What each of some jobs gives, in their order, each in a thread of its own.
fn run_batch<R: Threads + Sync, V: FreshView + Sync + Drop, W: FreshView + Sync + Drop>(
    rt: &R,
    alloc: Global,
    out: &V,
    back: &W,
    grain: u64,
    jobs: Vec<Job>,
) -> Result<Vec<Result<Sequence<u16>, NoMemory>>, AllocError>
    requires nodes { All (λ job. job.landmark.0 < (V.network out.now).nodes) jobs.items }
    requires turned { AreTurned (V.network out.now) (W.network back.now) }
    requires fine { 1 ≤ grain }
    requires coarse { grain ≤ 2 ^ 46 }
    ensures count { IfOk result (λ rows. vec_len rows ≡ vec_len jobs) }
    ensures each { IfOk result (λ rows. (i : ℕ) (d : _) (e : _) → i < vec_len jobs →
        Gives (V.network out.now) grain (slice_index_or jobs.items i e) (slice_index_or rows.items i d)) }
{
    thread::map_vec(rt, jobs, &|job| spread_one(alloc, out, back, grain, job))
}

/// One job.
fn spread_one<V: FreshView + Drop, W: FreshView + Drop>(
    alloc: Global,
    out: &V,
    back: &W,
    grain: u64,
    job: Job,
) -> Result<Sequence<u16>, NoMemory>
    requires node { job.landmark.0 < (V.network out.now).nodes }
    requires turned { AreTurned (V.network out.now) (W.network back.now) }
    requires fine { 1 ≤ grain }
    requires coarse { grain ≤ 2 ^ 46 }
    ensures { IfOk result (λ row. IsRow (V.network out.now) grain job row) }
{
    let count = out.node_count();
    match job.way {
        Way::From => {
            let view = GrainView::new(out.again(), grain);
            let labels = labels_from(alloc, &view, job.landmark)?;
            pack_labels(alloc, &labels, count, grain)
        }
        Way::To => {
            let view = GrainView::new(back.again(), grain);
            let labels = labels_to(alloc, &view, job.landmark)?;
            pack_labels(alloc, &labels, count, grain)
        }
    }
}

/// Labels as numbers of grains.
fn pack_labels(
    alloc: Global,
    labels: &LabelList,
    count: u32,
    grain: u64,
) -> Result<Sequence<u16>, NoMemory>
    requires count { count ≡ length labels.now }
    requires fine { 1 ≤ grain }
    ensures { IfOk result (λ row. row ≡ map (packed grain) labels.now) }
{
    let mut row = Sequence::new(alloc);
    for node in 0..count {
        row.push(pack(*labels.get(node as usize), grain))?;
    }
    Ok(row)
}

/// Two jobs for each landmark.
fn list_jobs(alloc: Global, landmarks: &[NodeId]) -> Result<Vec<Job>, NoMemory>
    ensures { IfOk result (λ jobs. jobs.items ≡ jobs_for landmarks.now) }
{
    let mut jobs = Vec::new(alloc);
    for landmark in landmarks {
        jobs.push(Job {
            landmark: *landmark,
            way: Way::From,
        })?;
        jobs.push(Job {
            landmark: *landmark,
            way: Way::To,
        })?;
    }
    Ok(jobs)
}

/// Two rows for each landmark.
fn pair_up(
    alloc: Global,
    rows: Vec<Result<Sequence<u16>, NoMemory>>,
) -> Result<LabelTable, NoMemory>
    requires { length rows.items % 2 ≡ 0 }
    ensures { IfOk result (λ table. rows_of table ≡ rows.items) }
{
    let mut table = LabelTable::new(alloc);
    let mut left = rows.into_iter();
    while let Some(from) = left.next() {
        let Some(to) = left.next() else {
            return Ok(table)
        };
        table.push_labels(PackedLabels {
            from: from?,
            to: to?,
        })?;
    }
    Ok(table)
}

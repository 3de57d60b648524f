// The families of jobs, one after the other: every job by its number.

use crate::edges::edge_job;
use crate::random::{random_job, sparse_job};
use crate::worlds::world_job;
use gapped::beats::{lent_job, mark_job, wrong_set_job};
use gapped::gaps::gaps_job;
use gapped::spreads::spread_job;
use jobs::job::Job;
use jobs::refused::{due_job, end_job};
use jobs::worked::worked_job;

// The first job of each family: after 35 cases four times come 64 ends at three places, in two ways by three calls and in
// written by one; 121 pairs of refusals by nine pairs of faults, in the same ways by the same calls; 4,452 scores with 36 themes,
// in three ways, and their sets; 1,500 rounds of ten; and 96 edges from four bookmarks at five rooms, in three ways.
const ENDS: usize = 140;

const DUES: usize = ENDS + 1344;

const WORLDS: usize = DUES + 7623;

const ROUNDS: usize = WORLDS + 485268;

const EDGES: usize = ROUNDS + 15000;

// The same of those with columns that hold no pitch: 1,053 scores with twelve themes in three ways, their sets, and twelve
// themes by the sets of another score; 2,728 scores and their sets of 0 and 4095 with four themes in two ways; 64 scores with
// four themes from seven columns at three shifts in three ways, and with two wrong sets at five places; 324 scores from five
// bookmarks in three ways; and 400 rounds of ten.
const GAPS: usize = EDGES + 5760;

const LENT: usize = GAPS + 51597;

const MARKS: usize = LENT + 21824;

const WRONG_SETS: usize = MARKS + 16128;

const SPREADS: usize = WRONG_SETS + 640;

const SPARSE: usize = SPREADS + 4860;

const JOBS: usize = SPARSE + 4000;

pub fn number_of_jobs() -> usize {
    JOBS
}

// The job of a number, where there is anything to try: of the worked cases, the ends of the ranges, the refusals that are due,
// the small world, pseudo-random scores, and the edges; then of small scores with gaps, beats by all sets of 0 and 4095, from
// every bookmark and with a wrong set, spread themes, and sparse scores.
pub fn job(k: usize) -> Option<Job> {
    match k {
        0..ENDS => worked_job(k),
        ENDS..DUES => end_job(k - ENDS),
        DUES..WORLDS => due_job(k - DUES),
        WORLDS..ROUNDS => Some(world_job(k - WORLDS)),
        ROUNDS..EDGES => Some(random_job(k - ROUNDS)),
        EDGES..GAPS => Some(edge_job(k - EDGES)),
        GAPS..LENT => Some(gaps_job(k - GAPS)),
        LENT..MARKS => Some(lent_job(k - LENT)),
        MARKS..WRONG_SETS => Some(mark_job(k - MARKS)),
        WRONG_SETS..SPREADS => Some(wrong_set_job(k - WRONG_SETS)),
        SPREADS..SPARSE => spread_job(k - SPREADS),
        _ => Some(sparse_job(k.saturating_sub(SPARSE))),
    }
}

//! What a run has to do.
ghost use Rattle.std.specs.Prelude.{◌≡◌, ℕ, ◌≤◌, ◌^◌, map, string_bytes, IfOk};
ghost use Rattle.tele_jobs.specs.CommandLine.{options_in};
ghost use Rattle.tele_jobs.specs.Jobs.{job_of};

use crate::options::{Options, OptionsRefusal, read_options};
use std::alloc::{AllocError, Global};

/// The most lines of a run.
pub const LINE_LIMIT: u64 = 16_777_216;

/// What a run has to do, by its command line.
#[derive(Clone, Copy, Drop)]
pub enum Job {
    /// To report that the command line is refused.
    Refuse,
    /// To make `count` lines from `seed`.
    Make { count: u64, seed: u64 },
    /// To read lines from the source.
    Read,
}

/// What a run has to do, with how many workers, with how many words at most in the first table of a
/// round, and whether the workers steal lanes from one another.
#[derive(Clone, Copy, Drop)]
pub struct Plan {
    pub job: Job,
    pub workers: u32,
    pub words: u32,
    pub steal: bool,
}

/// Reads the command line. If it asks for made lines, their number is within the limit of a run.
pub fn read_plan(alloc: Global, words: &[String]) -> Result<Plan, AllocError>
    ensures value { IfOk result (λ plan. plan.job ≡ job_of (map string_bytes words.now)) }
    ensures workers { IfOk result (λ plan. ¬ (plan.job ≡ Job.Refuse) →
        plan.workers ≡ (options_in (map string_bytes words.now)).workers) }
    ensures words { IfOk result (λ plan. ¬ (plan.job ≡ Job.Refuse) →
        plan.words ≡ (options_in (map string_bytes words.now)).words) }
    ensures steal { IfOk result (λ plan. ¬ (plan.job ≡ Job.Refuse) →
        plan.steal ≡ (options_in (map string_bytes words.now)).steal) }

    ensures some { IfOk result (λ plan. 1 ≤ plan.workers) }
    ensures at_most { IfOk result (λ plan. plan.workers ≤ 64) }
    ensures least { IfOk result (λ plan. 64 ≤ plan.words) }
    ensures most { IfOk result (λ plan. plan.words ≤ 2 ^ 28) }
    ensures few { IfOk result (λ plan. (count seed : ℕ) →
        plan.job ≡ Job.Make count seed → count ≤ LINE_LIMIT) }
{
    match read_options(alloc, words) {
        Ok(options) => match options.generate {
            Some(count) => Ok(plan_for(
                Job::Make {
                    count,
                    seed: options.seed,
                },
                options,
            )),
            None => Ok(plan_for(Job::Read, options)),
        },
        Err(OptionsRefusal::Usage) => Ok(Plan {
            job: Job::Refuse,
            workers: 1,
            words: 64,
            steal: false,
        }),
        Err(OptionsRefusal::Memory) => Err(AllocError),
    }
}

/// Makes the plan for a job, by the options.
fn plan_for(job: Job, options: Options) -> Plan
    requires at_most { options.workers ≤ 64 }
    requires most { options.words ≤ 2 ^ 28 }
    ensures value { result ≡ record {
      job = job;
      workers = options.workers;
      words = options.words;
      steal = options.steal;
    } }
{
    Plan {
        job,
        workers: options.workers as u32,
        words: options.words as u32,
        steal: options.steal,
    }
}

// A job cut into lots, as document 000 cuts it.
#![tactic(auto)]

ghost use Rattle.std.specs.Prelude.{◌≡◌, ◌++◌, ◌*◌, ◌≤◌, length, drop};
ghost use Rattle.rules.specs.Job.{longest_job, cut, item_numbers};
ghost use Rattle.rules.specs.Entries.{cut_says, after_cut};

use rules::Refusal;

// The most sublots that are cut.
const LONGEST_JOB: usize = 4096;

// How many lots there are: none, one, and from eight sublots on the whole part of (sublots + 2)/10.
#[tactic(auto, using(laws::proofs::JobLots::no_lots, laws::proofs::JobLots::one_lot, laws::proofs::JobLots::lots_by_ten))]
fn lots(sublots: usize) -> usize
    requires { sublots ≤ longest_job }
    ensures { result ≡ length (cut sublots) }
{
    match sublots {
        0 => 0,
        1..=7 => 1,
        _ => (sublots + 2) / 10,
    }
}

// Fills in where each lot starts and how many sublots it has: ten, and the last what is left.
#[tactic(auto, using(laws::proofs::JobNumbers::all_filled))]
fn fill(sublots: usize, lots: usize, out: &mut [u32])
    requires { (sublots ≤ longest_job) × (lots ≡ length (cut sublots)) × (2 * lots ≤ length out.old) }
    ensures { out.new ≡ item_numbers (cut sublots) ++ drop (2 * lots) out.old }
{
    let Some(last) = lots.checked_sub(1) else {
        return;
    };
    let mut start = 0;
    for i in 0..last {
        out[2 * i] = start;
        out[2 * i + 1] = 10;
        start += 10;
    }
    out[2 * last] = start;
    out[2 * last + 1] = sublots as u32 - start;
}

// The lots of a job of so many sublots, from the start of a lent list, two numbers to each: the sublot with which it starts, counted from 0, and
// how many it has. What lies past them stays.
#[tactic(auto, using(laws::proofs::JobLots::no_more_lots, laws::proofs::JobAnswers::refused_cut_keeps, laws::proofs::JobAnswers::long_job_is_refused, laws::proofs::JobAnswers::short_list_is_refused, laws::proofs::JobAnswers::cut_is_answered))]
pub fn cut(sublots: usize, out: &mut [u32]) -> Result<usize, Refusal>
    ensures result_value { result ≡ cut_says sublots out.old }
    ensures out_after { out.new ≡ after_cut sublots out.old }
{
    if LONGEST_JOB < sublots {
        return Err(Refusal::Number);
    }
    let items = lots(sublots);
    if out.len() < 2 * items {
        return Err(Refusal::Room);
    }
    fill(sublots, items, out);
    Ok(items)
}

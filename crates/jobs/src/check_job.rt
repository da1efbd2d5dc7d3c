// A job taken apart and checked.
ghost use Rattle.std.specs.Prelude.{◌+◌, ◌≤◌, ◌≡◌, length};
ghost use Rattle.isa.specs.Refusals.{answered};
ghost use Rattle.certificate.specs.Check.{check_of};
ghost use Rattle.jobs.specs.CheckJob.{certificate_of, count_of, image_of, is_count, job_of, wired_of};

use certificate::check::check;
use isa::Refusal;

// The count in a job's second and third byte, the high one first.
fn count_of(job: &[u8]) -> usize
    requires { 3 ≤ length job.now }
    ensures { result ≡ count_of job.now }
{
    u16::from_be_bytes([job[1], job[2]]) as usize
}

// Whether a count is that of a 2K or of a 4K job.
fn is_count(count: usize) -> bool
    ensures { result ≡ is_count count }
{
    count == 4097 || count == 8193
}

// The check of a job whose image and certificate have so many bytes each, as parts of the job.
fn check_parts(job: &[u8], size: usize) -> Result<u8, Refusal>
    requires { length job.now ≡ 4 + (size + size) }
    ensures { answered result
        ≡ check_of (image_of size job.now) (certificate_of size job.now)
        (wired_of job.now) }
{
    let middle = 4 + size;
    check(&job[4..middle], &job[middle..], job[3])
}

// What a job answers, by number: 20, 21, 22, then the check's answer. It is lent no buffer to write to.
#[tactic(auto, unfolding(crate::specs::CheckJob::job_of))]
pub fn check_job(job: &[u8]) -> Result<u8, Refusal>
    ensures { answered result ≡ job_of job.now }
{
    if job.len() < 3 {
        return Err(Refusal::JobTooShort);
    }
    if job[0] != 1 {
        return Err(Refusal::JobVersion);
    }
    let count = count_of(job);
    if !is_count(count) {
        return Err(Refusal::JobLength);
    }
    if job.len() - 3 != count {
        return Err(Refusal::JobLength);
    }
    check_parts(job, (count - 1) / 2)
}

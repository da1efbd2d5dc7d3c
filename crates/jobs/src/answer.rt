// A job answered by its line.
ghost use Rattle.jobs.specs.Answer.{Answers};
ghost use Rattle.jobs.specs.CheckJob.{job_of};
ghost use Rattle.jobs.specs.Line.{line_of};

use crate::check_job::check_job;
use crate::line::line_of;
use isa::Refusal;

// Answers a job with its line, written from the buffer's first byte; 16 bytes are enough for any. The answer is how many
// bytes the line has.
pub fn answer(job: &[u8], line: &mut [u8]) -> Result<usize, Refusal>
    ensures { Answers (line_of (job_of job.now)) line.old line.new result }
{
    line_of(check_job(job))
        .write(line)
        .ok_or(Refusal::BufferLength)
}

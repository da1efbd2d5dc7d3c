// Jobs: a job's bytes to the answer by number, and to the line that it is printed as (document 01, "Job program").
#![tactic(auto)]

pub mod answer;
pub mod check_job;
mod line;

use text_line::Line;

// A line in the making, as long as the longest.
pub type LineBuffer = Line<16>;

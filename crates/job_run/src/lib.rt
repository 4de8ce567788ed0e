// A job run (docs/RULES.md, section 12): its text read line by line, the calls of each line made, and the last piece line's object packed.
#![tactic(auto)]

mod start;

ghost use Rattle.std.specs.Prelude.{◌≡◌, ◌≤◌, length};
ghost use Rattle.lists.specs.Lists.{over};
ghost use Rattle.job_lines.specs.Lines.{cut};
ghost use Rattle.job_rules.specs.Job.{most_text, bytes_due, on, run, job};
ghost use Rattle.job_finish.specs.Ends.{Ends};

use job_header::read_limits;
use job_rules::{Breach, MOST_TEXT, Packed, Refused};
use start::run_limits;

fn run_text(text: &[u8], out: &mut [u8]) -> Result<Packed, Refused>
    requires { length text.now ≤ most_text }
    ensures { Ends (run (length out.old) 0 (cut text.now) (on bytes_due)) result out.old out.new }
{
    let header = read_limits(text)?;
    run_limits(text, header, out)
}

// What the job comes to. Its table stands in front of the output, which is else left as it was. It asks nothing of its caller.
pub fn run_job(text: &[u8], out: &mut [u8]) -> Result<Packed, Refused>
    ensures { (result ≡ (job (length out.old) text.now).ending) × (out.new ≡ over 0 (job (length out.old) text.now).table out.old) }
{
    if MOST_TEXT < text.len() {
        return Err(Breach(1).into());
    }
    run_text(text, out)
}

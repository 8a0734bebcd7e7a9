// What is reported of a run: a line for each answer, the counts that go from one to the next, and the last line.
#![tactic(auto)]

ghost use Rattle.std.specs.Prelude.{◌≡◌};
ghost use Rattle.lines.specs.Lines.{written};
ghost use Rattle.found.specs.Kept.{kept_in};
ghost use Rattle.report.specs.Report.{one_more, counted, told, last_line, untold};

use answer::Answer;

// How many lines there are, and how many have answer 0.
#[derive(Clone, Copy)]
pub struct Tally {
    pub offered: u64,
    pub accepted: u64,
}

// The tally after a line, and the place behind the line.
#[derive(Clone, Copy)]
pub struct Told {
    pub tally: Tally,
    pub at: usize,
}

// Where a run begins.
pub fn begin() -> Tally
    ensures { result ≡ untold }
{
    Tally {
        offered: 0,
        accepted: 0,
    }
}

#[tactic(auto, unfolding(crate::specs::Report::one_more))]
fn one_more(n: u64) -> u64
    ensures { result ≡ one_more n }
{
    n.saturating_add(1)
}

#[tactic(auto, unfolding(crate::specs::Report::counted))]
fn count(t: Tally, x: Answer) -> Tally
    ensures { result ≡ counted t x }
{
    let accepted = if x.number == 0 {
        one_more(t.accepted)
    } else {
        t.accepted
    };
    Tally {
        offered: one_more(t.offered),
        accepted,
    }
}

// The line of a record's answer, written over `out` from `at` on.
#[tactic(auto, unfolding(crate::specs::Report::told, crate::specs::Report::line_of))]
pub fn tell(t: Tally, mark: u16, x: Answer, out: &mut [u8], at: usize) -> Told
    ensures value { result ≡ (told t mark x at out.old).0 }
    ensures out_after { out.new ≡ (told t mark x at out.old).1 }
{
    let ordinal = one_more(t.offered);
    let at = lines::put_line(out, at, ordinal, mark, x);
    let tally = count(t, x);
    Told { tally, at }
}

// The last line, with how far the state in the used bytes of a buffer is.
#[tactic(auto, unfolding(crate::specs::Report::last_line, state::specs::State::is_held))]
pub fn tell_end(t: Tally, state: &[u8], used: usize, out: &mut [u8], at: usize) -> usize
    ensures value { result ≡ (written (last_line t (kept_in state.now used).holder) at out.old).0 }
    ensures out_after { out.new ≡ (written (last_line t (kept_in state.now used).holder) at out.old).1 }
{
    match found::in_buffer(state, used) {
        Ok(Some(m)) => lines::put_end(out, at, t.accepted, t.offered, true, m.head.sn),
        _ => {
            let none = number::from_u64(0);
            lines::put_end(out, at, t.accepted, t.offered, false, none)
        }
    }
}

//! How a run ends, and with which status.
ghost use Rattle.std.specs.Prelude.{◌≡◌};
ghost use Rattle.sm_run.specs.Endings.{outcome_of, outcome_status, error_status, work_status, status_of};

use sm_reports::ErrorLine;
use sm_search::WorkRefusal;
use sm_step::Verdict;

/// What a search came to.
#[derive(Clone, Copy)]
pub enum Outcome {
    /// A solution that answers the model: `optimal` or `satisfied`.
    Found,
    /// There is no solution.
    Infeasible,
    /// The bound on the nodes was reached.
    Limit,
    /// A number was out of range.
    Range,
}

/// How a run ends.
#[derive(Clone, Copy)]
pub enum Ending<'a> {
    /// A search came to its verdict, and its log was put, or its best solution.
    Solved(Outcome),
    /// A log is accepted, and that was told.
    Accepted,
    /// A log is refused, and that was told.
    LogRefused,
    /// There is no answer, and this was told.
    Refused(ErrorLine<'a>),
    /// The model has a real variable or a subproblem, which no search takes as yet, and that was told.
    Early,
    /// A search stopped after some of its log.
    Stopped(WorkRefusal),
    /// What was due could not be put whole.
    Untold,
}

impl Outcome {
    /// The outcome that a verdict says.
    pub fn of(verdict: &Verdict) -> Outcome
        ensures { result ≡ outcome_of verdict.now }
    {
        match verdict {
            Verdict::Optimal { .. } | Verdict::Satisfied => Outcome::Found,
            Verdict::Infeasible => Outcome::Infeasible,
            Verdict::Limit { .. } => Outcome::Limit,
            Verdict::Range { .. } => Outcome::Range,
        }
    }

    /// The status of a search.
    fn status(self) -> u8
        ensures { result ≡ outcome_status self }
    {
        match self {
            Outcome::Found => 0,
            Outcome::Infeasible => 1,
            Outcome::Limit => 2,
            Outcome::Range => 3,
        }
    }
}

/// The status of a run that has no answer.
fn error_status(error: &ErrorLine) -> u8
    ensures { result ≡ error_status error.now }
{
    match error {
        ErrorLine::Usage => 5,
        ErrorLine::Syntax { .. } | ErrorLine::Model { .. } => 6,
        ErrorLine::Data { .. } => 7,
        ErrorLine::Limit { .. } => 8,
        ErrorLine::Read => 10,
        ErrorLine::Memory => 12,
    }
}

/// The status of a search that stopped after some of its log.
fn work_status(refusal: WorkRefusal) -> u8
    ensures { result ≡ work_status refusal }
{
    match refusal {
        WorkRefusal::LogTooLong => 8,
        WorkRefusal::WriteFault => 11,
        WorkRefusal::OutOfMemory => 12,
    }
}

impl<'a> Ending<'a> {
    /// The status that the program answers.
    pub fn status(&self) -> u8
        ensures { result ≡ status_of self.now }
    {
        match self {
            Ending::Solved(outcome) => outcome.status(),
            Ending::Accepted => 0,
            Ending::LogRefused => 4,
            Ending::Refused(error) => error_status(error),
            Ending::Early => 13,
            Ending::Stopped(refusal) => work_status(*refusal),
            Ending::Untold => 11,
        }
    }
}

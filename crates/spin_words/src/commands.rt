// Words, and the command that they are.
ghost use Rattle.std.specs.Prelude.{◌≡◌};
ghost use Rattle.spin_words.specs.Commands.{numbered_command, spelled, texts_of};

use crate::numbers::number_of;

/// What the words ask for.
#[derive(Clone, Copy)]
pub enum Command {
    /// Makes something of a job.
    OfJob(JobWord),
    /// Checks the tables of an image against the trees of a request.
    Check,
    /// Does steps with applications on one machine.
    Apps,
}

/// What is made of a job.
#[derive(Clone, Copy)]
pub enum JobWord {
    /// Compiles the job, runs it, and reports.
    Run,
    /// Compiles the job, runs it, puts dumped copies back until none is left, and reports.
    Reinject,
    /// Compiles the job, takes its events one by one, and reports.
    Trace,
    /// Compiles the job to an image of its tables.
    Compile,
    /// Compiles the job and reports its tables.
    Tables,
    /// Runs a generated job.
    Gen(u64),
}

/// The command that the words are, the program's name left out: `run`, `reinject`, `trace`, `compile`, `tables`, `gen N` with a
/// number that is `0`, or digits without a leading 0, below 2^64, `check` or `apps`. `None` where they are none of these.
pub fn command_of(words: &[String]) -> Option<Command>
    ensures { result ≡ spelled (texts_of words.now) }
{
    match words {
        [word] => {
            let word = word.as_str();
            if word == "run" {
                Some(Command::OfJob(JobWord::Run))
            } else if word == "reinject" {
                Some(Command::OfJob(JobWord::Reinject))
            } else if word == "trace" {
                Some(Command::OfJob(JobWord::Trace))
            } else if word == "compile" {
                Some(Command::OfJob(JobWord::Compile))
            } else if word == "tables" {
                Some(Command::OfJob(JobWord::Tables))
            } else if word == "check" {
                Some(Command::Check)
            } else if word == "apps" {
                Some(Command::Apps)
            } else {
                None
            }
        }
        [word, number] => numbered_command(word.as_str(), number.as_str()),
        _ => None,
    }
}

fn numbered_command(word: &str, number: &str) -> Option<Command>
    ensures { result ≡ numbered_command word.now number.now }
{
    if word != "gen" {
        return None;
    }
    match number_of(number) {
        Some(number) => Some(Command::OfJob(JobWord::Gen(number))),
        None => None,
    }
}

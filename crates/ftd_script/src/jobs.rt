//! What a line of a script may ask of a shell.

ghost use Rattle.std.specs.Prelude.{◌≡◌};
ghost use Rattle.ftd_script.specs.Jobs.{is_for_shell, job_asked, job_if, job_of, reads_file};

use ftd_cli::{CliFault, Job, Task};

/// Whether the job reads a file, as an import does.
pub fn reads_file(job: &Job) -> bool
    ensures { result ≡ reads_file job.now }
{
    matches!(job, Job::Import { .. })
}

/// Whether a shell does the job, which does imports or not.
pub fn is_for_shell(job: &Job, does_imports: bool) -> bool
    ensures { result ≡ is_for_shell does_imports job.now }
{
    does_imports || !reads_file(job)
}

/// The job, if it is one that a shell does, which does imports or not.
pub fn job_if(job: Job, does_imports: bool) -> Option<Job>
    ensures { result ≡ job_if does_imports job }
{
    if is_for_shell(&job, does_imports) {
        Some(job)
    } else {
        None
    }
}

/// The job that a task does with a desk, if it is one that a shell does, which does imports or not.
pub fn job_of(task: Task, does_imports: bool) -> Option<Job>
    ensures { result ≡ job_of does_imports task }
{
    match task {
        Task::Local(task) => job_if(task.job, does_imports),
        _ => None,
    }
}

/// The job that a shell does of what was decided, which does imports or not.
pub fn job_asked(
    decided: Result<Task, CliFault>,
    does_imports: bool,
) -> Result<Option<Job>, CliFault>
    ensures { result ≡ job_asked does_imports decided }
{
    match decided {
        Ok(task) => Ok(job_of(task, does_imports)),
        Err(fault) => Err(fault),
    }
}

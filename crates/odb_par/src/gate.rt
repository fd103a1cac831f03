//! Gates: what may hold a worker up.

/// What may hold a worker up before and after it composes a job: nothing is known of it. Jobs are counted from 0.
pub trait Gate {
    /// Lets a worker begin with the job.
    fn enter(&self, job: usize);

    /// Notes that a worker is done with the job.
    fn leave(&self, job: usize);
}

/// The gate that holds nobody up.
pub struct Open;

impl Gate for Open {
    fn enter(&self, _job: usize) {}

    fn leave(&self, _job: usize) {}
}

ghost use Rattle.std.specs.Prelude.{◌≡◌};
ghost use Rattle.sm_queue.specs.Queue.{after, job_at, key_of_request, oldest_of, reply, without_job};

use crate::{Job, Reply, Request};
use sm_body::{Logged, Machine};
use std::alloc::{AllocError, Global};
use std::collections::VecDeque;
use std::marker::Model;

/// A queue of jobs by key, as the body of a shard.
pub type JobQueue = Logged<QueueMachine>;

/// The state of the queue: the jobs of all keys, in the order in which they came.
#[derive(Drop)]
pub struct QueueMachine {
    jobs: VecDeque<Job>,
}

impl Model for QueueMachine {
    ghost use Rattle.std.specs.Prelude.{List};
    ghost use Rattle.sm_queue.specs.declared.job.Job.{Job};

    ghost Value = { List Job };

    ghost view = { λ machine. machine.jobs.items };
}

impl Machine for QueueMachine {
    ghost use Rattle.std.specs.Prelude.{[]};

    type Request = Request;

    type Reply = Reply;

    ghost start = { [] };

    ghost after = { after };

    ghost reply = { reply };

    ghost key_of = { key_of_request };

    fn new(alloc: Global) -> QueueMachine {
        let jobs = VecDeque::new(alloc);
        QueueMachine { jobs }
    }

    fn key(request: &Request) -> &[u8] {
        match request {
            Request::Push(job) => job.key.as_bytes(),
            Request::Take(key) | Request::Length(key) => key.as_bytes(),
        }
    }

    fn answer(&mut self, _: Global, request: &Request) -> Result<Reply, AllocError> {
        match request {
            Request::Push(job) => {
                self.jobs.push_back(job.clone()?)?;
                Ok(Reply::Queued)
            }
            Request::Take(key) => Ok(self.take(key.as_bytes()).map_or(Reply::Empty, Reply::Given)),
            Request::Length(key) => {
                let jobs = self.jobs.iter();
                let waiting = jobs.filter(|job| job.key.as_bytes() == key.as_bytes());
                Ok(Reply::Length(waiting.count()))
            }
        }
    }

    fn rebuild(&mut self, _: Global) -> Result<(), AllocError> {
        self.jobs = self.jobs.clone()?;
        Ok(())
    }
}

impl QueueMachine {
    // Takes the key's job that has waited longest.
    fn take(&mut self, key: &[u8]) -> Option<Job>
        ensures job { result ≡ job_at self.old (oldest_of self.old key.now) }
        ensures rest { self.new ≡ without_job self.old (oldest_of self.old key.now) }
    {
        let place = self.oldest(key)?;
        self.jobs.remove(place)
    }

    // Returns the place of that job.
    fn oldest(&self, key: &[u8]) -> Option<usize>
        ensures { result ≡ oldest_of self.now key.now }
    {
        self.jobs.iter().position(|job| job.key.as_bytes() == key)
    }
}

//! A cluster's counts, as a table on standard error.
use sm_cluster::{Counts, Fate, ServerCounts};
use sm_threads::CountsListener;
use std::io;
use std::io::Eprint;

/// A listener that writes its events to standard error, as a table. If writing fails, nothing else changes.
#[derive(Drop)]
pub struct CountsTable<'a, R> {
    rt: &'a R,
}

impl<'a, R> CountsTable<'a, R> {
    /// Returns a listener that writes to the standard error of `rt`.
    pub fn new(rt: &'a R) -> CountsTable<'a, R> {
        CountsTable { rt }
    }
}

impl<'a, R: Eprint> CountsListener for CountsTable<'a, R> {
    fn hear_counts(&self, counts: &Counts) {
        let _told = write_table(self.rt, counts).is_ok();
    }
}

/// Returns a row for each server, and one for each shard to which anything happened.
fn write_table<R: Eprint>(rt: &R, counts: &Counts) -> io::Result<()> {
    eprintln!(rt; "server  answered  forwarded  refused")?;
    for row in &counts.servers {
        write_server(rt, row)?;
    }
    eprintln!(rt; "shard  admissions  changes")?;
    for row in &counts.shards {
        if row.admissions > 0 || row.changes > 0 {
            let (shard, admissions, changes) = (row.shard.number(), row.admissions, row.changes);
            eprintln!(rt; "{shard:>5}  {admissions:>10}  {changes:>7}")?;
        }
    }
    let retried = counts.retried;
    eprintln!(rt; "calls made anew  {retried}")
}

fn write_server<R: Eprint>(rt: &R, row: &ServerCounts) -> io::Result<()> {
    let server = row.server.number();
    let (answered, forwarded) = (row.of(Fate::Answered), row.of(Fate::Forwarded));
    eprint!(rt; "{server:>6}  {answered:>8}  {forwarded:>9}")?;
    for (fate, name) in Fate::REFUSALS {
        let count = row.of(fate);
        if count > 0 {
            eprint!(rt; "  {name} {count}")?;
        }
    }
    eprintln!(rt; "")
}

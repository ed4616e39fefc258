use sm_cluster::Counts;

/// The listener for a cluster's counts.
pub trait CountsListener {
    /// Hears the counts of a whole script, before its cluster is stopped.
    fn hear_counts(&self, counts: &Counts);
}

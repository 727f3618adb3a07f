//! The cluster of a run.
ghost use Rattle.std.specs.Prelude.{◌≡◌};

use engine_host::Cluster;

/// The same cluster once more.
pub fn same_cluster(cluster: &Cluster) -> Cluster
    ensures { result ≡ cluster.now }
{
    Cluster {
        base: cluster.base.same(),
        banks: cluster.banks,
        sessions: cluster.sessions,
    }
}

ghost use Rattle.std.specs.Prelude.{◌≡◌, leb};
ghost use Rattle.layout.specs.Catalog.{snapshot_of};

use layout::record::SnapshotRecord;

// "8 time below the latest snapshot's": whether a time is not.
pub fn is_in_time(latest: SnapshotRecord, time: u64) -> bool
    ensures { result ≡ leb (snapshot_of latest).time time }
{
    latest.time <= time
}

ghost use Rattle.std.specs.Prelude.{◌≡◌, ◌+◌, ◌≤◌};
ghost use Rattle.lists.specs.Lists.{bit};
ghost use Rattle.layout.specs.Catalog.{number_limit, snapshot_of};
ghost use Rattle.ducklake.specs.Commits.{following};
ghost use Rattle.ducklake.specs.Kinds.{raises_schema_version};
ghost use Rattle.ducklake.specs.Soundness.{snapshot_in_range};
ghost use Rattle.commits.specs.LentRecords.{CanFollow};

use layout::number::{CatalogId, FileId, NUMBER_LIMIT, SnapshotId};
use layout::record::{
    CREATED_SCHEMA, CREATED_TABLE, DROPPED_SCHEMA, DROPPED_TABLE, SnapshotRecord,
};

// "schema_version rises by one for kinds 1, 2, 6, 7 only."
#[tactic(auto, unfolding(ducklake::specs::Kinds::raises_schema_version, lists::specs::Lists::any))]
fn raises_schema_version(kind: u64) -> bool
    ensures { result ≡ raises_schema_version kind }
{
    matches!(
        kind,
        CREATED_SCHEMA | CREATED_TABLE | DROPPED_SCHEMA | DROPPED_TABLE
    )
}

// The schema version of a snapshot of that kind after one of version `latest`.
fn next_schema_version(latest: u64, kind: u64) -> u64
    requires { latest ≤ number_limit }
    ensures { result ≡ latest + bit (raises_schema_version kind) }
{
    latest + u64::from(raises_schema_version(kind))
}

// The snapshot after the latest, with so many catalog and file ids taken.
pub fn next_snapshot(
    latest: SnapshotRecord,
    time: u64,
    kind: u64,
    object: CatalogId,
    catalog_ids: u64,
    file_ids: u64,
) -> SnapshotRecord
    requires { CanFollow (snapshot_of latest) catalog_ids file_ids }
    ensures { snapshot_of result ≡ following (snapshot_of latest) time kind object.0 catalog_ids file_ids }
{
    let schema_version = next_schema_version(latest.schema_version, kind);
    SnapshotRecord {
        id: SnapshotId(latest.id.0 + 1),
        time,
        schema_version,
        next_catalog_id: CatalogId(latest.next_catalog_id.0 + catalog_ids),
        next_file_id: FileId(latest.next_file_id.0 + file_ids),
        kind,
        object,
    }
}

// "4 a number would pass 2^62": whether those of a snapshot don't.
// Stays: one limit bounds the numbers of every type of id, and plain numbers.
#[tactic(auto, unfolding(ducklake::specs::Soundness::snapshot_in_range))]
pub fn snapshot_fits(s: SnapshotRecord) -> bool
    ensures { result ≡ snapshot_in_range (snapshot_of s) }
{
    (s.id.0 <= NUMBER_LIMIT)
        & (s.schema_version <= NUMBER_LIMIT)
        & (s.next_catalog_id.0 <= NUMBER_LIMIT)
        & (s.next_file_id.0 <= NUMBER_LIMIT)
}

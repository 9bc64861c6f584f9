ghost use Rattle.std.specs.Prelude.{◌≡◌, true, ◌*◌, ◌≤◌};
ghost use Rattle.layout.specs.Lent.{words_lent};
ghost use Rattle.layout.specs.Words.{table_limit, capacity, within};
ghost use Rattle.ducklake.specs.Soundness.{first_unsound};
ghost use Rattle.soundness.specs.Scratch.{none_above};

use crate::each_record::records_unsound;
use crate::line::{FIELDS_LINE, SOUND};
use crate::references::{References, locate_references};
use crate::relations::{Scratch, compare, relations_unsound};
use layout::number::TABLE_LIMIT;
use layout::outcome::Counts;
use layout::record::SnapshotRecord;
use layout::tables::Tables;
use refusals::room::{capacity, is_within};
use runs::fields::Fields;
use runs::hints::fill_hints;

// Scratch is zeroed before it is used, so tables with few records are given little: of each size the records, the places, the hints and the words of keys.
const FEW_RECORDS: usize = 64;

const FEW_PLACES: usize = 3 * FEW_RECORDS;

const FEW_HINTS: usize = 4 * FEW_RECORDS;

const FEW_KEYS: usize = 6 * FEW_RECORDS;

const SOME_RECORDS: usize = 512;

const SOME_PLACES: usize = 3 * SOME_RECORDS;

const SOME_HINTS: usize = 4 * SOME_RECORDS;

const SOME_KEYS: usize = 6 * SOME_RECORDS;

const ALL_PLACES: usize = 3 * TABLE_LIMIT;

const ALL_HINTS: usize = 4 * TABLE_LIMIT;

const ALL_KEYS: usize = 6 * TABLE_LIMIT;

// Whether none of these tables has more records than that.
fn none_above(counts: Counts, most: usize) -> bool
    ensures { result ≡ none_above counts most }
{
    (counts.schemas <= most)
        & (counts.tables <= most)
        & (counts.columns <= most)
        & (counts.data_files <= most)
        & (counts.delete_files <= most)
        & (counts.scheduled <= most)
}

// The first line that doesn't hold, where the counts have room: in scratch for so many records of a table. An array's length is a parameter's name
// and no product with it, so that each length is a parameter. All arrays stand first: one behind a way out is zeroed twice.
fn unsound_in<const RECORDS: usize, const PLACES: usize, const HINTS: usize, const KEYS: usize>(
    lent: Tables,
    counts: Counts,
) -> u64
    requires room { within counts (capacity (words_lent lent)) ≡ true }
    requires few { none_above counts RECORDS ≡ true }
    requires lengths { (RECORDS ≤ table_limit) × (PLACES ≡ 3 * RECORDS) × (HINTS ≡ 4 * RECORDS) × (KEYS ≡ 6 * RECORDS) }
    ensures { result ≡ first_unsound (words_lent lent.entry) counts }
{
    let mut keys = [0u64; KEYS];
    let mut w = [0usize; PLACES];
    let mut v = [0usize; PLACES];
    let mut u = [0usize; RECORDS];
    let mut hints = [0u16; HINTS];
    let mut of_tables = [0u16; RECORDS];
    let mut of_columns = [0u16; RECORDS];
    let mut of_data_files = [0u16; RECORDS];
    let mut of_delete_files = [0u16; RECORDS];
    let mut starts = [0u16; RECORDS];
    let snapshot_ids = Fields {
        words: lent.snapshots,
        size: SnapshotRecord::SIZE,
        at: SnapshotRecord::ID,
        n: counts.snapshots,
    };
    let scale = fill_hints(snapshot_ids, &mut hints);
    let line = records_unsound(lent, counts, scale, &hints);
    if line != SOUND {
        return line;
    }
    locate_references(
        lent,
        counts,
        &mut hints,
        &mut of_tables,
        &mut of_columns,
        &mut of_data_files,
        &mut of_delete_files,
        &mut starts,
    );
    let references = References {
        of_tables: &of_tables,
        of_columns: &of_columns,
        of_data_files: &of_data_files,
        of_delete_files: &of_delete_files,
        starts: &starts,
    };
    let scratch = Scratch {
        keys: &mut keys,
        w: &mut w,
        v: &mut v,
        u: &mut u,
    };
    let compared = compare(lent, counts, references, scratch);
    relations_unsound(lent, counts, compared, references)
}

// The first line of 'Sound tables' that doesn't hold, or 0: any content of the runs, any counts.
pub fn first_unsound(lent: Tables, counts: Counts) -> u64
    ensures { result ≡ first_unsound (words_lent lent.entry) counts }
{
    let room = capacity(lent);
    let held = is_within(counts, room);
    if !held {
        return FIELDS_LINE;
    }
    let few = none_above(counts, FEW_RECORDS);
    if few {
        return unsound_in::<FEW_RECORDS, FEW_PLACES, FEW_HINTS, FEW_KEYS>(lent, counts);
    }
    let some = none_above(counts, SOME_RECORDS);
    if some {
        return unsound_in::<SOME_RECORDS, SOME_PLACES, SOME_HINTS, SOME_KEYS>(lent, counts);
    }
    unsound_in::<TABLE_LIMIT, ALL_PLACES, ALL_HINTS, ALL_KEYS>(lent, counts)
}

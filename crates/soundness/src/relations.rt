// The lines that set records against each other.
ghost use Rattle.std.specs.Prelude.{◌≡◌, ◌&&◌};
ghost use Rattle.layout.specs.Lent.{words_lent};
ghost use Rattle.layout.specs.Words.{load};
ghost use Rattle.ducklake.specs.Soundness.{positions_add_up, deletes_sound, first_unsound};
ghost use Rattle.soundness.specs.Scratch.{RecordsHold, Roomy};
ghost use Rattle.soundness.specs.Told.{Compares};

use crate::line::{
    COLUMNS_LINE, DELETES_LINE, NAMES_LINE, NESTING_LINE, NEXT_IDS_LINE, ROWS_LINE, SOUND,
    STATISTICS_LINE,
};
use crate::positions::positions_add_up;
use crate::references::References;
use layout::outcome::Counts;
use layout::tables::Tables;
use soundness_deletes::deletes::deletes_sound;
use soundness_deletes::rows::row_ranges_sound;
use soundness_lives::nesting::lives_nest;
use soundness_statistics::columns::column_counts_sound;
use soundness_statistics::statistics::statistics_sound;
use soundness_unique::files::files_distinct;
use soundness_unique::naming::names_apart;

// What the tests say that compare records with others of their kind.
// Stays: each truth value is a line's own answer, and no value goes with it.
#[derive(Clone, Copy)]
pub struct Compared {
    pub distinct: bool,
    pub apart: bool,
    pub deletes: bool,
    pub rows: bool,
}

// Scratch of these tests.
#[derive(Drop)]
pub struct Scratch<'a> {
    pub keys: &'a mut [u64],
    pub w: &'a mut [usize],
    pub v: &'a mut [usize],
    pub u: &'a mut [usize],
}

// Whether positions add up, and delete files are sound.
fn deletes_add_up(lent: Tables, counts: Counts, of_delete_files: &[u16], scratch: Scratch) -> bool
    requires { RecordsHold (words_lent lent) counts
        × Roomy counts scratch.keys.now scratch.w.now scratch.v.now scratch.u.now }
    ensures { result ≡ (positions_add_up (words_lent lent.entry) counts
        && deletes_sound (load (words_lent lent.entry) counts)) }
{
    let Scratch { keys, w, v, u } = scratch;
    let summed = positions_add_up(lent.delete_files, counts.delete_files, counts.positions);
    if !summed {
        return false;
    }
    deletes_sound(
        lent.data_files,
        lent.delete_files,
        lent.positions,
        counts,
        of_delete_files,
        keys,
        w,
        v,
        u,
    )
}

// Makes these tests, none of which relies on another.
pub fn compare(lent: Tables, counts: Counts, references: References, scratch: Scratch) -> Compared
    requires { RecordsHold (words_lent lent) counts
        × Roomy counts scratch.keys.now scratch.w.now scratch.v.now scratch.u.now }
    ensures { Compares (words_lent lent.entry) counts result }
{
    let Scratch { keys, w, v, u } = scratch;
    let distinct = files_distinct(
        lent.data_files,
        lent.delete_files,
        lent.scheduled,
        counts,
        keys,
        w,
        v,
    );
    let apart = names_apart(
        lent.schemas,
        lent.schema_names,
        lent.tables,
        lent.table_names,
        lent.columns,
        lent.column_names,
        counts,
        keys,
        w,
        v,
    );
    let rows = row_ranges_sound(
        lent.tables,
        lent.data_files,
        counts,
        references.of_data_files,
        keys,
    );
    let deletes = deletes_add_up(
        lent,
        counts,
        references.of_delete_files,
        Scratch { keys, w, v, u },
    );
    Compared {
        distinct,
        apart,
        deletes,
        rows,
    }
}

// The first line that doesn't hold, where those of each record by itself do. A test relies on those before it.
pub fn relations_unsound(
    lent: Tables,
    counts: Counts,
    compared: Compared,
    references: References,
) -> u64
    requires { RecordsHold (words_lent lent) counts
        × Compares (words_lent lent) counts compared }
    ensures { result ≡ first_unsound (words_lent lent.entry) counts }
{
    if !compared.distinct {
        return NEXT_IDS_LINE;
    }
    let nest = lives_nest(
        lent.schemas,
        lent.tables,
        lent.columns,
        lent.data_files,
        lent.delete_files,
        counts,
        references.of_tables,
        references.of_columns,
        references.of_data_files,
        references.of_delete_files,
    );
    if !nest {
        return NESTING_LINE;
    }
    if !compared.apart {
        return NAMES_LINE;
    }
    if !compared.deletes {
        return DELETES_LINE;
    }
    if !compared.rows {
        return ROWS_LINE;
    }
    let covered = statistics_sound(
        lent.columns,
        lent.data_files,
        lent.statistics,
        counts,
        references.of_data_files,
        references.starts,
    );
    if !covered {
        return STATISTICS_LINE;
    }
    let few = column_counts_sound(lent.tables, lent.columns, counts);
    if !few {
        return COLUMNS_LINE;
    }
    SOUND
}

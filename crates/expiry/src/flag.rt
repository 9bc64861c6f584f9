ghost use Rattle.std.specs.Prelude.{◌≡◌, not, ℕ, Bool, ◌≤◌, ◌<◌, length};
ghost use Rattle.lists.specs.Lists.{filter, range};
ghost use Rattle.lists.specs.Pieces.{Flags};
ghost use Rattle.layout.specs.Words.{table_limit};
ghost use Rattle.expiry.specs.Remaining.{Expirable, snapshot_stays, stays, Versions};
ghost use Rattle.expiry.specs.Stayed.{DataFiles, file_stays, StatisticsOfFiles, statistics_stay};

use crate::list::is_listed;
use crate::remaining::Remaining;
use layout::number::FileId;
use layout::record::DataFileRecord;
use lookup::find::find_data_file;
use lookup::life::life_at;
use records::snapshot::snapshot_id;
use records::statistics::statistics_data_file;
use runs::flags::set_flag;

// The flags of the first n places: whether each of them stays.
fn flag_places<F: Fn(usize) -> bool>(flags: &mut [u8], n: usize, stays: F)
    requires { (n ≤ length flags.old) × ((i : ℕ) → i < n → F.pre stays i) }
    ensures { (q : ℕ → Bool) → ((i : ℕ) (r : Bool) → i < n → F.post stays i r → r ≡ q i) → Flags q n flags.new }
{
    for i in 0..n {
        let here = stays(i);
        set_flag(flags, i, here);
    }
}

// The flags of the snapshots that are not listed.
pub fn flag_snapshots(snapshots: &[u64], n: usize, ids: &[u64], flags: &mut [u8])
    requires { Expirable snapshots.now n ids.now × (table_limit ≤ length flags.old) }
    ensures { Flags (snapshot_stays snapshots.now ids.now) n flags.new }
{
    flag_places(flags, n, |i| !is_listed(ids, snapshot_id(snapshots, i)));
}

// n records of `size` words, each with a life from the word `life` on.
#[derive(Clone, Copy)]
pub struct Records<'a> {
    pub words: &'a [u64],
    pub size: usize,
    pub life: usize,
    pub n: usize,
    pub ghost versions: { Versions size life words.now n },
}

impl<'a> Records<'a> {
    // Whether the record at the place i is live at one of the ids that remain.
    pub fn stays(self, i: usize, left: Remaining) -> bool
        requires { i < self.n }
        ensures { result ≡ stays self.entry.size self.entry.life self.entry.words.now left.entry.ids.now i }
    {
        left.shows(life_at(self.words, self.size, self.life, i))
    }

    // The flags of those that are.
    pub fn flag_live(self, left: Remaining, flags: &mut [u8])
        requires { table_limit ≤ length flags.old }
        ensures { Flags (stays self.entry.size self.entry.life self.entry.words.now left.entry.ids.now) self.entry.n flags.new }
    {
        flag_places(flags, self.n, |i| self.stays(i, left));
    }

    // How many are live at none of them.
    pub fn count_removed(self, left: Remaining) -> usize
        ensures { result ≡ length (filter
            (λ j. not (stays self.entry.size self.entry.life self.entry.words.now left.entry.ids.now j)) (range 0 self.entry.n)) }
    {
        let mut k: usize = 0;
        for i in 0..self.n {
            let live = self.stays(i, left);
            if !live {
                k += 1;
            }
        }
        k
    }
}

// Whether the data file of an id is on record and live at one of the ids that remain.
fn file_stays(data_files: &[u64], n: usize, id: FileId, left: Remaining) -> bool
    requires { DataFiles data_files.now n }
    ensures { result ≡ file_stays data_files.now n left.entry.ids.now id.0 }
{
    let files = Records {
        words: data_files,
        size: DataFileRecord::SIZE,
        life: DataFileRecord::BEGIN,
        n,
    };
    match find_data_file(data_files, n, id) {
        Some(i) => files.stays(i, left),
        None => false,
    }
}

// The flags of the statistics whose data file stays.
pub fn flag_statistics(
    statistics: &[u64],
    n: usize,
    data_files: &[u64],
    k: usize,
    left: Remaining,
    flags: &mut [u8],
)
    requires { StatisticsOfFiles statistics.now n data_files.now k × (table_limit ≤ length flags.old) }
    ensures { Flags (statistics_stay statistics.now data_files.now k left.entry.ids.now) n flags.new }
{
    flag_places(
        flags,
        n,
        |i| file_stays(data_files, k, statistics_data_file(statistics, i), left),
    );
}

ghost use Rattle.std.specs.Prelude.{◌≡◌, ◌*◌, ◌≤◌, eqb, length};
ghost use Rattle.layout.specs.Fields.{delete_file_size};
ghost use Rattle.layout.specs.Words.{positions_before};

use records::delete_file::delete_file_delete_count;

// Whether the delete counts "add up to the used positions". A sum that grows past them is not taken further.
pub fn positions_add_up(delete_files: &[u64], n: usize, total: usize) -> bool
    requires { delete_file_size * n ≤ length delete_files.now }
    ensures { result ≡ eqb (positions_before delete_files.now n) total }
{
    let mut sum: usize = 0;
    for i in 0..n {
        let count = delete_file_delete_count(delete_files, i) as usize;
        if total - sum < count {
            return false;
        }
        sum += count;
    }
    sum == total
}
